// The answer as one number of 32 bits, which is all that a function called from C can give back.
ghost use Rattle.std.specs.Prelude.{◌≡◌};
ghost use Rattle.rules.specs.Slot.{packed};

use codec::numbers::{number_of, value_of};
use rules::Answer;

// The answer's number times 65536 plus its value.
pub fn packed(answer: Answer) -> u32
    ensures { result ≡ packed answer }
{
    number_of(answer) as u32 * 65536 + value_of(answer) as u32
}
