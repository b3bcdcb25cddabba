// The types of document 01. What they mean stands in specs/, a file for each part of it.
#![tactic(auto)]

// Section 1: three numbers that are never mixed.
// A RAM byte address: any sixteen bits. One that lies in RAM is at most 4095, an end at most 4096.
#[derive(Clone, Copy, Debug, Default, PartialEq, Eq, PartialOrd, Ord)]
pub struct RamByte(pub u16);
// A 16-bit word of flash.
#[derive(Clone, Copy, Debug, Default, PartialEq, Eq, PartialOrd, Ord)]
pub struct FlashWord(pub u16);
// A block of the protected range.
#[derive(Clone, Copy, Debug, PartialEq, Eq, PartialOrd, Ord)]
pub struct Block(pub u16);

// The one way from a number to an address, for those who read numbers that stand for one.
impl From<u16> for RamByte {
    ghost use Rattle.std.specs.Prelude.{◌≡◌};
    ghost use Rattle.rules.specs.State.{ram_byte};

    ghost from_gives = { λ n r. r ≡ ram_byte n };

    fn from(n: u16) -> RamByte {
        RamByte(n)
    }
}

impl From<u16> for FlashWord {
    ghost use Rattle.std.specs.Prelude.{◌≡◌};
    ghost use Rattle.rules.specs.Code.{flash_word};

    ghost from_gives = { λ n r. r ≡ flash_word n };

    fn from(n: u16) -> FlashWord {
        FlashWord(n)
    }
}

// RAM, and the jump table as a call is lent it. Here and elsewhere a cast is by `as`: the check proves that it loses nothing.
pub const RAM_BYTES: usize = 4096;

pub type Ram = [u8; RAM_BYTES];

pub const TABLE_WORDS: usize = 1024;

pub type Table = [u16; TABLE_WORDS];

// Section 3: the code of a domain, from start up to but not including end.
#[derive(Clone, Copy, Debug, Default, PartialEq, Eq)]
pub struct Range {
    pub start: FlashWord,
    pub end: FlashWord,
}

// Sections 2 and 3.
#[derive(Clone, Copy, Debug, Default, PartialEq, Eq)]
pub struct Config {
    pub bot: RamByte,
    pub heap: RamByte,
    pub safe: RamByte,
    pub top: RamByte,
    pub jt: FlashWord,
    pub ranges: [Range; 8],
}

// Section 4.
#[derive(Clone, Copy, Debug, Default, PartialEq, Eq)]
pub struct State {
    pub config: Config,
    pub domain: u8,
    pub bound: RamByte,
    pub safepointer: RamByte,
}

// Section 5: a frame of the safe stack, as a call pushes it and a return finds it. Only a return finds damage; it stays a case beside the two,
// since `frames::push` and `looked_at::caller` are promised for it, too.
#[derive(Clone, Copy, Debug, PartialEq, Eq)]
pub enum Frame {
    Local(FlashWord),
    // return site, old bound, calling domain
    Cross(FlashWord, RamByte, u8),
    Damage,
}

// Section 6: the numbers 1 to 20, in order.
#[derive(Clone, Copy, Debug, PartialEq, Eq)]
pub enum Refusal {
    WrongSize = 1,
    BrokenRule,
    BadState,
    PastRam,
    // below bot, or a block of another owner
    OtherOwner,
    AboveBound,
    SiteOutside,
    TargetOutside,
    PastTables,
    BadEntry,
    PointerOutside,
    PassesTop,
    NoFrame,
    DamagedFrame,
    TrustedMalloc,
    SizeZero,
    NoRun,
    NoSegment,
    NotOwner,
    DomainAbove,
}

// Section 6: 0 with its value, or a refusal.
pub type Answer = Result<u16, Refusal>;

// What an operation that is done hands back where it changes the state.
#[derive(Clone, Copy, Debug, PartialEq, Eq)]
pub struct Done {
    pub value: u16,
    pub state: State,
}

// What an operation hands back beside RAM. It is no Result: a refusal hands back a state, too, the one given or zeros (section 6).
#[derive(Clone, Copy, Debug, PartialEq, Eq)]
pub struct Outcome {
    pub answer: Answer,
    pub state: State,
}

// Section 7: an operation of a script, with its operands.
#[derive(Clone, Copy, Debug, PartialEq, Eq)]
pub enum Operation {
    Store(RamByte, u8),
    // target, return site, stack pointer
    Call(FlashWord, FlashWord, RamByte),
    Return,
    Malloc(u16),
    Free(RamByte),
    Change(RamByte, u8),
}

// Section 7: what stands at a place of a script: three ways to go on, which an Option of a Result would name no plainer.
#[derive(Clone, Copy, Debug, PartialEq, Eq)]
pub enum Read {
    // an operation, and where the next one starts
    Whole(Operation, usize),
    // one that is unknown or cut
    Cut,
    // nothing more
    End,
}
