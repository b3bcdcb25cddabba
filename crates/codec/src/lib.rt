// Numbers that come in as bytes, "low byte first": sixteen bits at a place, as a number or as one of the kinds of address. And an answer as the
// numbers that go out (`numbers`). Bytes come with a place in them, which the fields only_word_at and its like are about.
#![tactic(auto)]

ghost use Rattle.std.specs.Prelude.{◌+◌, ◌<◌, length};
ghost use Rattle.rules.specs.Bytes.{word_at};

pub mod config;
pub mod numbers;

pub fn word_at<W: From<u16>>(bytes: &[u8], at: usize) -> W
    requires { at + 1 < length bytes.now }
    ensures { W.from_gives (word_at bytes.now at) result }
{
    W::from(address::joined(bytes[at], bytes[at + 1]))
}
