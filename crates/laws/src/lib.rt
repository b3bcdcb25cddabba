// Facts about the rules of document 01, each stated once, in proofs/. No code.
#![tactic(auto)]
