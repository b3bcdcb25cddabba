// Section 5, store: whether it is done, or which refusal it gets, as the rule's rows, store_rows, say it: an answer. The map is read once.
ghost use Rattle.std.specs.Prelude.{◌≡◌};
ghost use Rattle.rules.specs.Memory.{codes_of};
ghost use Rattle.rules.specs.Store.{store_rows};

use address::domains::TRUSTED;
use good::GoodState;
use rules::{Answer, Ram, RamByte, Refusal};

#[tactic(auto, using(crate::proofs::Good::good_facts))]
pub fn answer(good: GoodState, ram: &Ram, address: RamByte) -> Answer
    ensures { result ≡ store_rows good.state (codes_of good.state.config ram.now) address }
{
    let state = good.state;
    let config = state.config;
    if address::last_byte() < address {
        return Err(Refusal::PastRam);
    }
    if state.domain == TRUSTED {
        return Ok(0);
    }
    if address < config.bot {
        return Err(Refusal::OtherOwner);
    }
    if config.top <= address {
        if state.bound < address {
            return Err(Refusal::AboveBound);
        }
        return Ok(0);
    }
    if map::by_address::owner_at(config, ram, address) != state.domain {
        return Err(Refusal::OtherOwner);
    }
    Ok(0)
}
