// An operation of a script, read at its place.
ghost use Rattle.std.specs.Prelude.{◌≡◌, ◌≤◌, length};
ghost use Rattle.rules.specs.Script.{operation_at};

use codec::word_at;
use rules::{Operation, Read};

// The numbers 1 to 6 are document 01's, and stand here alone. What stands at a place: an operation and where the next one starts, one that is unknown or cut, or the end.
#[tactic(auto, unfolding(rules::specs::Script::operation_at))]
pub fn operation_at(input: &[u8], at: usize) -> Read
    requires { at ≤ length input.now }
    ensures { result ≡ operation_at input.now at }
{
    match &input[at..] {
        [] => Read::End,
        [1, _, _, byte, ..] => Read::Whole(Operation::Store(word_at(input, at + 1), *byte), at + 4),
        [2, _, _, _, _, _, _, ..] => Read::Whole(
            Operation::Call(
                word_at(input, at + 1),
                word_at(input, at + 3),
                word_at(input, at + 5),
            ),
            at + 7,
        ),
        [3, ..] => Read::Whole(Operation::Return, at + 1),
        [4, _, _, ..] => Read::Whole(Operation::Malloc(word_at(input, at + 1)), at + 3),
        [5, _, _, ..] => Read::Whole(Operation::Free(word_at(input, at + 1)), at + 3),
        [6, _, _, domain, ..] => Read::Whole(
            Operation::Change(word_at(input, at + 1), *domain),
            at + 4,
        ),
        _ => Read::Cut,
    }
}
