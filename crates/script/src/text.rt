// Text, added to what stands in a lent place: constant bytes, a number in decimal, the line of an operation, the lines of set-up.
ghost use Rattle.std.specs.Prelude.{◌≡◌, ◌∷◌, ◌≤◌, length};
ghost use Rattle.rules.specs.Script.{space, decimal, line_of, set_up_text};

use codec::numbers::{number_of, value_of};
use itoa::Buffer;
use rules::Outcome;

// A lent place, and how many of its bytes hold text.
#[derive(Drop)]
pub struct Text<'a> {
    place: &'a mut [u8],
    len: usize,
    ghost within: { len ≤ length place.now },
}

impl<'a> Text<'a> {
    ghost use Rattle.script.specs.Text.{Adds, room, line_most, set_up_most, handed};

    pub fn new(place: &'a mut [u8]) -> Self
        ensures same_place { result.place.ghost_name ≡ place.entry.ghost_name }
        ensures bytes { result.place.now ≡ place.old }
        ensures empty { result.len ≡ 0 }
    {
        Text { place, len: 0 }
    }

    pub fn len(&self) -> usize
        ensures { result ≡ self.now.len }
    {
        self.len
    }

    #[tactic(auto, using(std::proofs::lemmas::Slice::overwrites))]
    pub fn push(&mut self, bytes: &[u8])
        requires { length bytes.now ≤ room self.old }
        ensures { Adds self.old self.new bytes.now }
    {
        let end = self.len + bytes.len();
        self.place[self.len..end].copy_from_slice(bytes);
        self.len = end;
    }

    // A number in decimal.
    #[tactic(auto, using(crate::proofs::Texts::decimal_lem))]
    fn decimal(&mut self, n: u16)
        requires { 5 ≤ room self.old }
        ensures { Adds self.old self.new (decimal n) }
    {
        self.push(Buffer::new().format(n).as_bytes());
    }

    // A number with a space before it.
    fn field(&mut self, n: u16)
        requires { 6 ≤ room self.old }
        ensures { Adds self.old self.new (space ∷ decimal n) }
    {
        self.push(b" ");
        self.decimal(n);
    }

    // Count, answer number, value, domain, bound and safe pointer.
    // Number by number and not by write!, which promises its text only where it answers Ok, and nowhere that it does.
    #[tactic(auto, using(crate::proofs::Texts::decimal_most))]
    pub fn line(&mut self, count: u16, outcome: Outcome)
        requires { line_most ≤ room self.old }
        ensures { Adds self.old self.new (line_of count (handed outcome)) }
    {
        let Outcome { answer, state } = outcome;
        self.decimal(count);
        self.field(u16::from(number_of(answer)));
        self.field(value_of(answer));
        self.field(u16::from(state.domain));
        self.field(state.bound.0);
        self.field(state.safepointer.0);
        self.push(b"\n");
    }

    // HMT and the version, setup and its number.
    #[tactic(auto, using(crate::proofs::Texts::decimal_most))]
    pub fn set_up(&mut self, outcome: Outcome)
        requires { set_up_most ≤ room self.old }
        ensures { Adds self.old self.new (set_up_text (handed outcome)) }
    {
        self.push(b"HMT 1\nsetup ");
        self.decimal(u16::from(number_of(outcome.answer)));
        self.push(b"\n");
    }
}
