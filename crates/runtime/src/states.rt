// The state that a refused set-up hands back.
ghost use Rattle.std.specs.Prelude.{◌≡◌};
ghost use Rattle.rules.specs.State.{zeros};

use rules::{Config, Range, State};

pub fn zeros() -> State
    ensures { result ≡ zeros }
{
    let byte = address::zero_byte();
    let word = address::zero_word();
    State {
        config: Config {
            bot: byte,
            heap: byte,
            safe: byte,
            top: byte,
            jt: word,
            ranges: [Range {
                start: word,
                end: word,
            }; 8],
        },
        domain: 0,
        bound: byte,
        safepointer: byte,
    }
}
