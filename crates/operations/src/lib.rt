// What set-up and the operations do once RAM has its length and the configuration or the state is good, which their types say: the rows below
// the first two, for a return below 13. Document 01 hands state and RAM to each, so they are no one value. The runtime and the layer for C make those tests, each on the state as it comes to them.
#![tactic(auto)]

ghost use Rattle.std.specs.Prelude.{◌≡◌, ◌≤◌, ◌<◌, length, Ok};
ghost use Rattle.rules.specs.Code.{range_of};
ghost use Rattle.rules.specs.Answers.{Gives, kept, moved};
ghost use Rattle.rules.specs.SetUp.{set_up_of};
ghost use Rattle.rules.specs.Call.{frame_bytes};
ghost use Rattle.rules.specs.Operations.{store_of, call_of, malloc_of, free_of, change_of};
ghost use Rattle.operations.specs.CallRows.{table_of, CalledCode};
ghost use Rattle.operations.specs.ReturnRows.{caller_of, returning};

mod calls;
mod code_ranges;
pub mod looked_at;
mod segments;
mod states;
mod store_check;

use address::domains::{TRUSTED, is_module};
use code_ranges::in_range;
use good::{GoodConfig, GoodState};
use map::by_address;
use rules::{Answer, Done, FlashWord, Frame, Ram, RamByte, Range, Refusal, State};

// Section 2: set-up with a configuration that is good.
pub fn set_up(good: GoodConfig, ram: &mut Ram) -> State
    ensures { Gives (kept (Ok 0) result) ram.new (set_up_of good.config ram.old) }
{
    map::set_up_map(good, ram);
    states::fresh(good.config)
}

// Section 5: the operations.
pub fn store(good: GoodState, ram: &mut Ram, address: RamByte, byte: u8) -> Answer
    ensures { Gives (kept result good.state) ram.new (store_of good.state ram.old address byte) }
{
    store_check::answer(good, ram, address)?;
    ram[address.0 as usize] = byte;
    Ok(0)
}

// A call is handed what it looks at: the code ranges of the current domain and of the called one, and the word of its target; a local call,
// or one past the tables, looks at the first alone. Each is handed by itself: only_call_with is about each.
#[tactic(auto, using(crate::proofs::CallRows::from_outside))]
pub fn call_with(
    good: GoodState,
    ram: &mut Ram,
    code: Range,
    called: Range,
    word: u16,
    target: FlashWord,
    site: FlashWord,
    pointer: RamByte,
) -> Result<Done, Refusal>
    requires { (code ≡ range_of good.state.config good.state.domain) × CalledCode good.state target called }
    ensures { Gives (moved result good.state) ram.new (call_of good.state ram.old (table_of word) target site pointer) }
{
    if !in_range(code, site) {
        return Err(Refusal::SiteOutside);
    }
    if target < good.state.config.jt {
        return calls::local(good, ram, code, target, site);
    }
    calls::cross(good, ram, called, word, target, site, pointer)
}

// A return is handed the frame below the safe pointer and the code range of the domain that it returns to, and no byte of RAM. Each kind of frame has
// rows of its own.
pub fn ret_with(state: State, frame: Frame, code: Range) -> Result<Done, Refusal>
    requires { (state.config.safe.0 < state.safepointer.0) × (length (frame_bytes frame) ≤ state.safepointer.0) × (code ≡ range_of state.config (caller_of state frame)) }
    ensures { moved result state ≡ returning state frame }
{
    match frame {
        Frame::Local(site) if in_range(code, site) => {
            let safepointer = address::below(state.safepointer, frames::LOCAL_BYTES);
            Ok(Done {
                value: site.0,
                state: State {
                    safepointer,
                    ..state
                },
            })
        }
        Frame::Cross(site, bound, domain)
            if in_range(code, site) && (state.bound..=address::last_byte()).contains(&bound) => {
            let safepointer = address::below(state.safepointer, frames::CROSS_BYTES);
            Ok(Done {
                value: site.0,
                state: State {
                    domain,
                    bound,
                    safepointer,
                    ..state
                },
            })
        }
        _ => Err(Refusal::DamagedFrame),
    }
}

#[tactic(auto, using(crate::proofs::Good::good_facts, crate::proofs::Acts::malloc_run))]
pub fn malloc(good: GoodState, ram: &mut Ram, size: u16) -> Answer
    ensures { Gives (kept result good.state) ram.new (malloc_of good.state ram.old size) }
{
    let config = good.state.config;
    let domain = good.state.domain;
    if domain == TRUSTED {
        return Err(Refusal::TrustedMalloc);
    }
    if size == 0 {
        return Err(Refusal::SizeZero);
    }
    let n = address::blocks_for(config, size);
    let start = by_address::lowest_run(good.config(), ram, n).ok_or(Refusal::NoRun)?;
    segments::set_segment(config, ram, start, n, domain);
    Ok(start.0)
}

#[tactic(auto, using(crate::proofs::Good::good_facts, crate::proofs::Acts::own_run))]
pub fn free(good: GoodState, ram: &mut Ram, address: RamByte) -> Answer
    ensures { Gives (kept result good.state) ram.new (free_of good.state ram.old address) }
{
    segments::segment_at(good, ram, address)?;
    let freed = by_address::segment_blocks(good.config(), ram, address, good.state.domain);
    by_address::set_free(good.state.config, ram, address, freed);
    Ok(freed)
}

#[tactic(auto, using(crate::proofs::Good::good_facts, crate::proofs::Acts::own_run, laws::proofs::Codes::module_domain))]
pub fn change(good: GoodState, ram: &mut Ram, address: RamByte, domain: u8) -> Answer
    ensures { Gives (kept result good.state) ram.new (change_of good.state ram.old address domain) }
{
    segments::segment_at(good, ram, address)?;
    let config = good.state.config;
    if !is_module(config, domain) {
        return Err(Refusal::DomainAbove);
    }
    let changed = by_address::segment_blocks(good.config(), ram, address, good.state.domain);
    segments::set_segment(config, ram, address, changed, domain);
    Ok(changed)
}
