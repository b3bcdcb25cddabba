// Document 02, Ask 1: set-up and the operations, callable from C on numbers and byte slices. The state sits in a slot of 48 bytes.
#![tactic(auto)]

ghost use Rattle.std.specs.Prelude.{◌≡◌};
ghost use Rattle.rules.specs.Code.{flash_word};
ghost use Rattle.rules.specs.State.{ram_byte};
ghost use Rattle.rules.specs.Operations.{call_of, return_of};
ghost use Rattle.rules.specs.Slot.{GivesToC, packed, state_in, table_in, c_set_up_of, c_store_of, c_call_of, c_return_of, c_malloc_of, c_free_of, c_change_of};
ghost use Rattle.hmt_c.specs.Step.{MayAct, Stepped, Leaves};

mod answer;
mod slot;

use answer::packed;
use codec::config::code_range;
use codec::word_at;
use good::{GoodConfig, GoodState};
use operations::looked_at::{caller, domain_of, table_word, top_frame};
use rules::{Answer, FlashWord, RAM_BYTES, Ram, RamByte, Refusal};
use slot::{CONFIG, Slot};

type TableBytes = [u8; 2048];

// The step with which every operation begins, lengths, byte 47 and the state tested, and then the operation in the good state.
fn in_good_state<F: FnOnce(GoodState, &mut Ram, &mut Slot) -> Answer>(
    ram: &mut [u8],
    slot: &mut [u8],
    operation: F,
) -> Answer
    requires { MayAct F.FnOnce operation }
    ensures { Stepped F.FnOnce operation slot.old ram.old result slot.new ram.new }
{
    // Asked by itself: where `as_mut_array` alone asks it, malloc, free and change take four to eight instructions more before they refuse.
    if ram.len() != RAM_BYTES {
        return Err(Refusal::WrongSize);
    }
    let Some(ram) = ram.as_mut_array() else {
        return Err(Refusal::WrongSize);
    };
    let Some(slot) = slot.as_mut_array() else {
        return Err(Refusal::WrongSize);
    };
    if slot[slot::ZERO] != 0 || !slot::good_state(slot) {
        return Err(Refusal::BadState);
    }
    let good = GoodState {
        state: slot::state_in(slot),
    };
    operation(good, ram, slot)
}

// Set-up reads only the configuration from the slot.
fn set_up(ram: &mut Ram, slot: &mut Slot) -> Answer
    ensures { GivesToC (packed result) slot.new ram.new (c_set_up_of slot.old ram.old) }
{
    if !slot::good_config(slot) {
        return Err(Refusal::BrokenRule);
    }
    let good = GoodConfig {
        config: slot::config_in(slot),
    };
    slot::set_up(slot, operations::set_up(good, ram));
    Ok(0)
}

// A call, handed what it looks at from where it stands: by index from the configuration the ranges take 10 to 19 instructions more.
fn call(
    good: GoodState,
    ram: &mut Ram,
    slot: &mut Slot,
    table: &TableBytes,
    target: FlashWord,
    site: FlashWord,
    pointer: RamByte,
) -> Answer
    requires { good.state ≡ state_in slot.old }
    ensures { Leaves result slot.new ram.new (call_of good.state ram.old (table_in table.now) target site pointer) slot.old }
{
    let at = table_word(good.state.config.jt, target);
    let code = code_range(slot, CONFIG, good.state.domain);
    let called = code_range(slot, CONFIG, domain_of(at));
    let word = word_at(table, 2 * (at as usize));
    let done = operations::call_with(good, ram, code, called, word, target, site, pointer)?;
    slot::change(slot, done.state);
    Ok(done.value)
}

// A return the same.
fn ret(good: GoodState, ram: &Ram, slot: &mut Slot) -> Answer
    requires { good.state ≡ state_in slot.old }
    ensures { Leaves result slot.new ram.now (return_of good.state ram.now) slot.old }
{
    let state = good.state;
    if state.safepointer == state.config.safe {
        return Err(Refusal::NoFrame);
    }
    let frame = top_frame(good, ram);
    let code = code_range(slot, CONFIG, caller(state, frame));
    let done = operations::ret_with(state, frame, code)?;
    slot::change(slot, done.state);
    Ok(done.value)
}

#[unsafe(no_mangle)]
pub extern "C" fn hmt_set_up(ram: &mut [u8], slot: &mut [u8]) -> u32
    ensures { GivesToC result slot.new ram.new (c_set_up_of slot.old ram.old) }
{
    let Some(slot) = slot.as_mut_array() else {
        return packed(Err(Refusal::WrongSize));
    };
    let Some(ram) = ram.as_mut_array() else {
        return packed(Err(Refusal::WrongSize));
    };
    packed(set_up(ram, slot))
}

#[unsafe(no_mangle)]
pub extern "C" fn hmt_store(ram: &mut [u8], slot: &mut [u8], address: u16, byte: u8) -> u32
    ensures { GivesToC result slot.new ram.new (c_store_of slot.old ram.old (ram_byte address) byte) }
{
    let address = RamByte::from(address);
    packed(in_good_state(ram, slot, |good, ram, _slot| {
        operations::store(good, ram, address, byte)
    }))
}

#[unsafe(no_mangle)]
pub extern "C" fn hmt_call(
    ram: &mut [u8],
    slot: &mut [u8],
    table: &[u8],
    target: u16,
    site: u16,
    pointer: u16,
) -> u32
    ensures { GivesToC result slot.new ram.new (c_call_of slot.old ram.old table.now (flash_word target) (flash_word site) (ram_byte pointer)) }
{
    let Some(table) = table.as_array() else {
        return packed(Err(Refusal::WrongSize));
    };
    let target = FlashWord::from(target);
    let site = FlashWord::from(site);
    let pointer = RamByte::from(pointer);
    packed(in_good_state(ram, slot, |good, ram, slot| {
        call(good, ram, slot, table, target, site, pointer)
    }))
}

#[unsafe(no_mangle)]
pub extern "C" fn hmt_return(ram: &mut [u8], slot: &mut [u8]) -> u32
    ensures { GivesToC result slot.new ram.new (c_return_of slot.old ram.old) }
{
    packed(in_good_state(ram, slot, |good, ram, slot| { ret(good, ram, slot) }))
}

#[unsafe(no_mangle)]
pub extern "C" fn hmt_malloc(ram: &mut [u8], slot: &mut [u8], size: u16) -> u32
    ensures { GivesToC result slot.new ram.new (c_malloc_of slot.old ram.old size) }
{
    packed(in_good_state(ram, slot, |good, ram, _slot| {
        operations::malloc(good, ram, size)
    }))
}

#[unsafe(no_mangle)]
pub extern "C" fn hmt_free(ram: &mut [u8], slot: &mut [u8], address: u16) -> u32
    ensures { GivesToC result slot.new ram.new (c_free_of slot.old ram.old (ram_byte address)) }
{
    let address = RamByte::from(address);
    packed(in_good_state(ram, slot, |good, ram, _slot| {
        operations::free(good, ram, address)
    }))
}

#[unsafe(no_mangle)]
pub extern "C" fn hmt_change(ram: &mut [u8], slot: &mut [u8], address: u16, domain: u8) -> u32
    ensures { GivesToC result slot.new ram.new (c_change_of slot.old ram.old (ram_byte address) domain) }
{
    let address = RamByte::from(address);
    packed(in_good_state(ram, slot, |good, ram, _slot| {
        operations::change(good, ram, address, domain)
    }))
}
