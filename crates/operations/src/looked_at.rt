// What an operation looks at beside the state, for those who hand it: the table word of a call's target and its domain, the frame of a
// return and the domain that it returns to.
ghost use Rattle.std.specs.Prelude.{◌≡◌, ◌-◌, ◌/◌, ◌≤◌, ◌<◌};
ghost use Rattle.rules.specs.Code.{table_words, domain_words};
ghost use Rattle.rules.specs.Return.{top_frame};
ghost use Rattle.operations.specs.ReturnRows.{caller_of};

use good::GoodState;
use rules::{FlashWord, Frame, Ram, State};

// A word of the table has sixteen bits, where an array's length is a usize.
pub const TABLE_WORDS: u16 = rules::TABLE_WORDS as u16;

const DOMAIN_WORDS: u16 = 128;

// The table word of a cross-domain call's target; the first, of which nothing is asked, where the target is local or past the tables: no Option, since
// one read before the rows then serves every call, and only_table_word says so.
pub fn table_word(jt: FlashWord, target: FlashWord) -> u16
    ensures { (result < table_words) × (target.0 - jt.0 < table_words → result ≡ target.0 - jt.0) × (table_words ≤ target.0 - jt.0 → result ≡ 0) }
{
    match target.0.checked_sub(jt.0) {
        Some(word) if word < TABLE_WORDS => word,
        _ => 0,
    }
}

// The domain of a table word.
pub fn domain_of(word: u16) -> u8
    requires { word < table_words }
    ensures { result ≡ word / domain_words }
{
    (word / DOMAIN_WORDS) as u8
}

// The frame below the safe pointer, from the safe stack area and no other byte.
#[tactic(auto, using(crate::proofs::Good::good_bounds, crate::proofs::SafeStack::slice_of))]
pub fn top_frame(good: GoodState, ram: &Ram) -> Frame
    requires { good.state.config.safe.0 < good.state.safepointer.0 }
    ensures { result ≡ top_frame good.state ram.now }
{
    let config = good.state.config;
    let area = &ram[config.safe.0 as usize..config.top.0 as usize];
    frames::pop(area, good.state.safepointer.0 - config.safe.0)
}

// The domain that a frame returns to.
pub fn caller(state: State, frame: Frame) -> u8
    ensures { result ≡ caller_of state frame }
{
    match frame {
        Frame::Cross(_, _, domain) => domain,
        Frame::Local(_) | Frame::Damage => state.domain,
    }
}
