// The state that a set-up that is done hands back: no default, which is the state of zeros.
ghost use Rattle.std.specs.Prelude.{◌≡◌};
ghost use Rattle.rules.specs.State.{fresh};

use address::domains::TRUSTED;
use rules::{Config, State};

pub fn fresh(config: Config) -> State
    ensures { result ≡ fresh config }
{
    State {
        config,
        domain: TRUSTED,
        bound: address::last_byte(),
        safepointer: config.safe,
    }
}
