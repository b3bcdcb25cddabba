// The slot: the state judged and read where it stands, the fresh state and what a call or a return changes written to it.
ghost use Rattle.std.specs.Prelude.{◌≡◌, true, ◌&&◌, [], ◌∷◌, ◌++◌, length};
ghost use Rattle.std.proofs.lemmas.List.Edits.{sets};
ghost use Rattle.rules.specs.Code.{domains};
ghost use Rattle.rules.specs.State.{ranges_ordered, ranges_apart, good_config, good_state};
ghost use Rattle.rules.specs.Slot.{run_part, config_in, state_in, run_as_bytes};
ghost use Rattle.good.proofs.Groups.{rest_good};
ghost use Rattle.hmt_c.specs.Ranges.{ranges_in};

use codec::config::{JT, RANGE_BYTES, RANGES, code_range, config_at, range_at};
use codec::word_at;
use good::ranges::in_any_order_by;
use rules::{Config, FlashWord, State};

// Where its parts begin: the configuration, what a call or a return changes (bound, safe pointer, domain), a byte 0.
pub const CONFIG: usize = 0;

const RUN: usize = CONFIG + codec::config::BYTES;

const BOUND: usize = RUN;

const SAFEPOINTER: usize = RUN + 2;

const DOMAIN: usize = RUN + 4;

pub const ZERO: usize = RUN + 5;

pub const BYTES: usize = ZERO + 1;

pub type Slot = [u8; BYTES];

pub fn config_in(slot: &Slot) -> Config
    ensures { result ≡ config_in slot.now }
{
    config_at(slot, CONFIG)
}

pub fn state_in(slot: &Slot) -> State
    ensures { result ≡ state_in slot.now }
{
    State {
        config: config_in(slot),
        domain: slot[DOMAIN],
        bound: word_at(slot, BOUND),
        safepointer: word_at(slot, SAFEPOINTER),
    }
}

// The code ranges of the eight domains, each in its four bytes.
fn ranges(slot: &Slot) -> &[[u8; RANGE_BYTES]]
    ensures eight { length result.now ≡ domains }
    ensures read { ranges_in result.now ≡ (config_in slot.now).ranges }
{
    slot[CONFIG + RANGES..RUN].as_chunks().0
}

// Code as it usually lies, seen in one pass: modules in rising order, the trusted code before or after them. An empty range below last ends
// below it, too, and so needs no test against jt.
fn rising(slot: &Slot) -> bool
    ensures { result ≡ true → (ranges_ordered (config_in slot.now) && ranges_apart (config_in slot.now)) ≡ true }
{
    let jt: FlashWord = word_at(slot, CONFIG + JT);
    let ranges = ranges(slot);
    let first = range_at(&ranges[0], 0).start;
    let mut last = first;
    for bytes in &ranges[..7] {
        let code = range_at(bytes, 0);
        if last <= code.start {
            if code.end < code.start {
                return false;
            }
            last = code.end;
        } else if code.start != code.end {
            return false;
        }
    }
    let trusted = range_at(&ranges[7], 0);
    if trusted.end < trusted.start {
        return false;
    }
    if last <= trusted.start {
        return trusted.end <= jt;
    }
    trusted.end <= first && last <= jt
}

// The ranges are read where they stand: a copy of the configuration would stand on a small unit's stack.
fn in_any_order(slot: &Slot) -> bool
    ensures { result ≡ (ranges_ordered (config_in slot.now) && ranges_apart (config_in slot.now)) }
{
    in_any_order_by(word_at(slot, CONFIG + JT), |d| code_range(slot, CONFIG, d))
}

// Beside good::good_config and good_state the slot is judged where it stands, in one pass where code lies as usual: a store to an own block takes 169
// instructions, and 302 where every pair is tested.
// Whether the configuration is good but for the order of its four addresses, and its code lies as usual. This part is a call in every operation;
// what an operation reads itself is tested where it is read.
fn usual(slot: &Slot) -> bool
    ensures { result ≡ true → rest_good (config_in slot.now) ≡ true }
{
    good::bounds::multiples(config_in(slot))
        && good::ranges::jt_in_flash(config_in(slot))
        && rising(slot)
}

// The same however its code lies.
fn unusual(slot: &Slot) -> bool
    ensures { result ≡ rest_good (config_in slot.now) }
{
    good::bounds::multiples(config_in(slot))
        && good::ranges::jt_in_flash(config_in(slot))
        && in_any_order(slot)
}

// Whether the configuration in the slot is good; its addresses first, since that is short.
pub fn good_config(slot: &Slot) -> bool
    ensures { result ≡ good_config (config_in slot.now) }
{
    good::good_bounds(config_in(slot)) && (usual(slot) || unusual(slot))
}

// Whether the state in the slot is good. `usual` and `unusual` are called from here and from good_config, not through a function of both: with one
// caller each they would be made a part of it, and the usual call would save registers for the unusual one. It answers a bool: with the refusal in a
// Result most cases take 38 to 86 instructions more.
pub fn good_state(slot: &Slot) -> bool
    ensures { result ≡ good_state (state_in slot.now) }
{
    (usual(slot) || unusual(slot))
        && good::good_run(state_in(slot))
        && good::bounds::in_order(config_in(slot))
}

// What a call or a return changes: the bound, the safe pointer and the domain, five bytes and no other.
pub fn change(slot: &mut Slot, state: State)
    ensures { slot.new ≡ sets slot.old run_part (run_as_bytes state) }
{
    [slot[BOUND], slot[BOUND + 1]] = state.bound.0.to_le_bytes();
    [slot[SAFEPOINTER], slot[SAFEPOINTER + 1]] = state.safepointer.0.to_le_bytes();
    slot[DOMAIN] = state.domain;
}

// What a set-up gives: the configuration stands in the slot already.
pub fn set_up(slot: &mut Slot, state: State)
    ensures { slot.new ≡ sets slot.old run_part (run_as_bytes state ++ (0 ∷ [])) }
{
    change(slot, state);
    slot[ZERO] = 0;
}
