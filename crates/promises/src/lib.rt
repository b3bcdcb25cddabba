// What document 01's rules promise, stated in specs/ and proved in proofs/. No code.
#![tactic(auto)]
