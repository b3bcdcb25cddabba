// Section 5, call: a local one and a cross-domain one, behind the row of every call; each kind has rows of its own.
ghost use Rattle.std.specs.Prelude.{◌≡◌, ◌+◌, ◌≤◌, length};
ghost use Rattle.std.proofs.lemmas.List.Edits.{sets};
ghost use Rattle.rules.specs.Code.{range_of};
ghost use Rattle.rules.specs.Call.{frame_bytes};
ghost use Rattle.rules.specs.Answers.{Gives, moved};
ghost use Rattle.operations.specs.CallRows.{CalledCode, local_given, cross_given};

use crate::code_ranges::in_range;
use crate::looked_at::{TABLE_WORDS, domain_of};
use good::GoodState;
use rules::{Done, FlashWord, Frame, Ram, RamByte, Range, Refusal, State};

// A frame is written to the safe stack area, which is lent to the frame writer, and to no other byte.
#[tactic(auto, using(crate::proofs::Good::good_bounds, crate::proofs::SafeStack::put_from))]
fn push(good: GoodState, ram: &mut Ram, frame: Frame)
    requires { good.state.safepointer.0 + length (frame_bytes frame) ≤ good.state.config.top.0 }
    ensures { ram.new ≡ sets ram.old good.state.safepointer.0 (frame_bytes frame) }
{
    let config = good.state.config;
    let area = &mut ram[config.safe.0 as usize..config.top.0 as usize];
    frames::push(area, good.state.safepointer.0 - config.safe.0, frame);
}

#[tactic(auto, using(crate::proofs::Good::good_bounds), unfolding(crate::specs::CallRows::local_given))]
pub fn local(
    good: GoodState,
    ram: &mut Ram,
    code: Range,
    target: FlashWord,
    site: FlashWord,
) -> Result<Done, Refusal>
    requires { code ≡ range_of good.state.config good.state.domain }
    ensures { Gives (moved result good.state) ram.new (local_given good.state ram.old target site) }
{
    let state = good.state;
    if !in_range(code, target) {
        return Err(Refusal::TargetOutside);
    }
    let safepointer = address::above(state.safepointer, frames::LOCAL_BYTES);
    if state.config.top < safepointer {
        return Err(Refusal::PassesTop);
    }
    push(good, ram, Frame::Local(site));
    Ok(Done {
        value: target.0,
        state: State {
            safepointer,
            ..state
        },
    })
}

#[tactic(auto, using(crate::proofs::Good::good_bounds), unfolding(crate::specs::CallRows::cross_given))]
pub fn cross(
    good: GoodState,
    ram: &mut Ram,
    called: Range,
    word: u16,
    target: FlashWord,
    site: FlashWord,
    pointer: RamByte,
) -> Result<Done, Refusal>
    requires { (good.state.config.jt.0 ≤ target.0) × CalledCode good.state target called }
    ensures { Gives (moved result good.state) ram.new (cross_given good.state ram.old word target site pointer) }
{
    let state = good.state;
    let config = state.config;
    let at = target.0 - config.jt.0;
    if TABLE_WORDS <= at {
        return Err(Refusal::PastTables);
    }
    let entry = address::entry(word);
    if entry.0 == 0 || !in_range(called, entry) {
        return Err(Refusal::BadEntry);
    }
    if !(address::below(config.top, 1)..=state.bound).contains(&pointer) {
        return Err(Refusal::PointerOutside);
    }
    let safepointer = address::above(state.safepointer, frames::CROSS_BYTES);
    if config.top < safepointer {
        return Err(Refusal::PassesTop);
    }
    push(good, ram, Frame::Cross(site, state.bound, state.domain));
    Ok(Done {
        value: entry.0,
        state: State {
            domain: domain_of(at),
            bound: pointer,
            safepointer,
            ..state
        },
    })
}
