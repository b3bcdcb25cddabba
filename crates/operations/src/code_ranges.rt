// Section 3: whether a word of flash lies in a code range.
ghost use Rattle.std.specs.Prelude.{◌≡◌};
ghost use Rattle.rules.specs.Code.{in_range};

use rules::{FlashWord, Range};

pub fn in_range(range: Range, word: FlashWord) -> bool
    ensures { result ≡ in_range range word }
{
    (range.start..range.end).contains(&word)
}
