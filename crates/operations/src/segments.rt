// Section 5: the segment that malloc and change write; and for free and change, whether one of the current domain starts at an address, or
// which refusal both get.
ghost use Rattle.std.specs.Prelude.{◌≡◌, ◌+◌, ◌-◌, ◌≤◌, ◌<◌, true};
ghost use Rattle.rules.specs.Memory.{ram_bytes, layout_of, block_of, codes_of, map_byte, is_domain, set_codes, segment_codes};
ghost use Rattle.operations.specs.Places.{SegmentFor};

use good::GoodState;
use map::by_address;
use rules::{Config, Ram, RamByte, Refusal};

#[tactic(auto, using(crate::proofs::Acts::segment_run, crate::proofs::Acts::codes_lt))]
pub fn set_segment(config: Config, ram: &mut Ram, a: RamByte, n: u16, domain: u8)
    requires by_domain { is_domain config domain ≡ true }
    requires from_bot { config.bot.0 ≤ a.0 }
    requires some { 0 < n }
    requires fits { map_byte (layout_of config) (block_of config a + (n - 1)) < ram_bytes }
    ensures { ram.new ≡ set_codes (layout_of config) ram.old (block_of config a) (segment_codes (layout_of config) domain n) }
{
    let first = map::start_code(config, domain);
    let later = map::later_code(config, domain);
    by_address::set_run(config, ram, a, n, first, later);
}

#[tactic(auto, using(crate::proofs::Good::good_facts))]
pub fn segment_at(good: GoodState, ram: &Ram, address: RamByte) -> Result<(), Refusal>
    ensures { SegmentFor result good.state (codes_of good.state.config ram.now) address }
{
    let config = good.state.config;
    if !(config.heap..config.safe).contains(&address) || !by_address::is_first(config, address) {
        return Err(Refusal::NoSegment);
    }
    let code = by_address::code_at(config, ram, address);
    if !map::starts_segment(config, code) {
        return Err(Refusal::NoSegment);
    }
    if map::owner_of(config, code) != good.state.domain {
        return Err(Refusal::NotOwner);
    }
    Ok(())
}
