// Set-up and the operations of document 01. Each gives what its rule gives, refusals included.
#![tactic(auto)]

ghost use Rattle.std.specs.Prelude.{◌≡◌, false, length};
ghost use Rattle.rules.specs.Code.{table_words};
ghost use Rattle.rules.specs.State.{zeros};
ghost use Rattle.rules.specs.Answers.{Gives, moved};
ghost use Rattle.rules.specs.SetUp.{set_up_of};
ghost use Rattle.rules.specs.Operations.{lending, wrong_lent, operation_of, store_of, call_of, return_of, malloc_of, free_of, change_of};

mod states;

use good::{GoodConfig, GoodState};
use operations::looked_at::{caller, domain_of, table_word, top_frame};
use rules::{
    Config, Done, FlashWord, Operation, Outcome, Ram, RamByte, Refusal, State, TABLE_WORDS,
};

// What is handed back in all: after a refusal the state that was given.
fn handed_back(done: Result<Done, Refusal>, given: State) -> Outcome
    ensures { result ≡ moved done given }
{
    match done {
        Ok(Done { value, state }) => Outcome {
            answer: Ok(value),
            state,
        },
        Err(refusal) => Outcome {
            answer: Err(refusal),
            state: given,
        },
    }
}

// Section 2: the tests before set-up, and set-up.
fn try_set_up(config: Config, ram: &mut [u8]) -> Result<Done, Refusal>
    ensures { Gives (moved result zeros) ram.new (set_up_of config ram.old) }
{
    let ram = ram.as_mut_array().ok_or(Refusal::WrongSize)?;
    let good = GoodConfig::try_from(config)?;
    let state = operations::set_up(good, ram);
    Ok(Done { value: 0, state })
}

// Section 2: set-up. A refused one hands back a state of zeros.
pub fn set_up(config: Config, ram: &mut [u8]) -> Outcome
    ensures { Gives result ram.new (set_up_of config ram.old) }
{
    handed_back(try_set_up(config, ram), states::zeros())
}

// Section 5: what a call looks at beside the state, and the call.
fn call_in(
    good: GoodState,
    ram: &mut Ram,
    table: &[u16],
    target: FlashWord,
    site: FlashWord,
    pointer: RamByte,
) -> Result<Done, Refusal>
    requires { length table.now ≡ table_words }
    ensures { Gives (moved result good.state) ram.new (call_of good.state ram.old table.now target site pointer) }
{
    let config = good.state.config;
    let at = table_word(config.jt, target);
    let code = config.ranges[good.state.domain as usize];
    let called = config.ranges[domain_of(at) as usize];
    let word = table[at as usize];
    operations::call_with(good, ram, code, called, word, target, site, pointer)
}

// What a return looks at, and the return. It leaves RAM as it is.
fn ret_in(good: GoodState, ram: &Ram) -> Result<Done, Refusal>
    ensures { Gives (moved result good.state) ram.now (return_of good.state ram.now) }
{
    let state = good.state;
    if state.safepointer == state.config.safe {
        return Err(Refusal::NoFrame);
    }
    let frame = top_frame(good, ram);
    let code = state.config.ranges[caller(state, frame) as usize];
    operations::ret_with(state, frame, code)
}

// Whether what an operation is lent beside RAM has another length than it must: only a call is lent a jump table. The rule's own test, so no Result.
fn wrong_lent(table: &[u16], op: Operation) -> bool
    ensures { result ≡ wrong_lent (lending table.now) op }
{
    matches!(op, Operation::Call(..)) && table.len() != TABLE_WORDS
}

// An operation in a good state: a match, which says that none is forgotten. The table is a slice, since only a call is lent one; its length was tested before the state.
fn operate_in(good: GoodState, ram: &mut Ram, table: &[u16], op: Operation) -> Result<Done, Refusal>
    requires { wrong_lent (lending table.now) op ≡ false }
    ensures { Gives (moved result good.state) ram.new (operation_of good.state ram.old (lending table.now) op) }
{
    let state = good.state;
    let done = |value| Done { value, state };
    match op {
        Operation::Store(address, byte) => operations::store(good, ram, address, byte).map(done),
        Operation::Call(target, site, pointer) => call_in(good, ram, table, target, site, pointer),
        Operation::Return => ret_in(good, ram),
        Operation::Malloc(size) => operations::malloc(good, ram, size).map(done),
        Operation::Free(address) => operations::free(good, ram, address).map(done),
        Operation::Change(address, domain) => {
            operations::change(good, ram, address, domain).map(done)
        }
    }
}

// The two rows that every table of refusals begins with, then the operation's own.
fn try_operate(state: State, ram: &mut [u8], table: &[u16], op: Operation) -> Result<Done, Refusal>
    ensures { Gives (moved result state) ram.new (operation_of state ram.old (lending table.now) op) }
{
    if wrong_lent(table, op) {
        return Err(Refusal::WrongSize);
    }
    let ram = ram.as_mut_array().ok_or(Refusal::WrongSize)?;
    let good = GoodState::try_from(state)?;
    operate_in(good, ram, table, op)
}

// Any operation.
pub fn operate(state: State, ram: &mut [u8], table: &[u16], op: Operation) -> Outcome
    ensures { Gives result ram.new (operation_of state ram.old (lending table.now) op) }
{
    handed_back(try_operate(state, ram, table, op), state)
}

// Each operation by itself: public, and operate with one operation.
pub fn store(state: State, ram: &mut [u8], address: RamByte, byte: u8) -> Outcome
    ensures { Gives result ram.new (store_of state ram.old address byte) }
{
    operate(state, ram, &[], Operation::Store(address, byte))
}

pub fn call(
    state: State,
    ram: &mut [u8],
    table: &[u16],
    target: FlashWord,
    site: FlashWord,
    pointer: RamByte,
) -> Outcome
    ensures { Gives result ram.new (call_of state ram.old table.now target site pointer) }
{
    operate(state, ram, table, Operation::Call(target, site, pointer))
}

pub fn ret(state: State, ram: &mut [u8]) -> Outcome
    ensures { Gives result ram.new (return_of state ram.old) }
{
    operate(state, ram, &[], Operation::Return)
}

pub fn malloc(state: State, ram: &mut [u8], size: u16) -> Outcome
    ensures { Gives result ram.new (malloc_of state ram.old size) }
{
    operate(state, ram, &[], Operation::Malloc(size))
}

pub fn free(state: State, ram: &mut [u8], address: RamByte) -> Outcome
    ensures { Gives result ram.new (free_of state ram.old address) }
{
    operate(state, ram, &[], Operation::Free(address))
}

pub fn change(state: State, ram: &mut [u8], address: RamByte, domain: u8) -> Outcome
    ensures { Gives result ram.new (change_of state ram.old address domain) }
{
    operate(state, ram, &[], Operation::Change(address, domain))
}
