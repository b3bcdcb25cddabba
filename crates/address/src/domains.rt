// Who is a domain, and who a module: beside the addresses, since every crate above asks it. A configuration is handed where the rule's definition
// takes one, as in the map and for a block's size: that is a matter of the unit. Two definitions of the rules, so two functions.
ghost use Rattle.std.specs.Prelude.{◌≡◌};
ghost use Rattle.rules.specs.Memory.{is_domain, is_module};

use rules::Config;

// The trusted domain, the last of eight.
pub const TRUSTED: u8 = 7;

#[tactic(auto, unfolding(rules::specs::Memory::is_domain))]
pub fn is_domain(config: Config, domain: u8) -> bool
    ensures { result ≡ is_domain config domain }
{
    domain <= TRUSTED
}

#[tactic(auto, unfolding(rules::specs::Memory::is_module))]
pub fn is_module(config: Config, domain: u8) -> bool
    ensures { result ≡ is_module config domain }
{
    domain < TRUSTED
}
