// The three kinds of address, and every way from one to another: no other file makes one from a number, but for those where numbers come in
// from outside. A block is 8 bytes here and nowhere else in the code.
#![tactic(auto)]

ghost use Rattle.std.specs.Prelude.{◌≡◌, ◌&&◌, ◌+◌, ◌-◌, ◌*◌, ◌≤◌, ◌<◌};
ghost use Rattle.rules.specs.Memory.{start_of, block_of, is_multiple, blocks_for, ram_bytes};
ghost use Rattle.rules.specs.Code.{flash_word};
ghost use Rattle.rules.specs.State.{ram_byte};
ghost use Rattle.rules.specs.Malloc.{block};

pub mod domains;
pub mod packing;

use rules::{Block, Config, FlashWord, RamByte};

// RAM is this many bytes; an address has sixteen bits, where an array's length is a usize.
pub const RAM_BYTES: u16 = rules::RAM_BYTES as u16;

const BLOCK_BYTES: u16 = 8;

// How many whole blocks lie from bot up to an address.
#[tactic(auto, unfolding(rules::specs::Memory::block_of, rules::specs::Memory::block_bytes))]
pub fn whole_blocks(config: Config, a: RamByte) -> u16
    requires { config.bot.0 ≤ a.0 }
    ensures { result ≡ block_of config a }
{
    (a.0 - config.bot.0) / BLOCK_BYTES
}

// The block that an address from bot on lies in: as many whole ones lie below it.
pub fn block_of(config: Config, a: RamByte) -> Block
    requires { config.bot.0 ≤ a.0 }
    ensures { result ≡ block (block_of config a) }
{
    Block(whole_blocks(config, a))
}

// The first byte of a block.
#[tactic(auto, unfolding(rules::specs::Memory::start_of, rules::specs::Memory::block_bytes))]
pub fn start_of(config: Config, k: Block) -> RamByte
    requires { start_of config k.0 < 65536 }
    ensures { result ≡ ram_byte (start_of config k.0) }
{
    RamByte(config.bot.0 + k.0 * BLOCK_BYTES)
}

// The block n further on.
pub fn further(k: Block, n: u16) -> Block
    requires { k.0 + n < 65536 }
    ensures { result ≡ block (k.0 + n) }
{
    Block(k.0 + n)
}

// The block n before another.
pub fn before(k: Block, n: u16) -> Block
    requires { n ≤ k.0 }
    ensures { result ≡ block (k.0 - n) }
{
    Block(k.0 - n)
}

// The first block of the protected range: no default, since block 0 is a place and no zero.
pub fn first_block() -> Block
    ensures { result ≡ block 0 }
{
    Block(0)
}

// Two addresses at once: their bits together leave no remainder by a power of two if each leaves none.
pub fn are_multiples(config: Config, a: RamByte, b: RamByte) -> bool
    ensures { result ≡ (is_multiple config a && is_multiple config b) }
{
    (a.0 | b.0).is_multiple_of(BLOCK_BYTES)
}

// How many blocks hold size bytes.
#[tactic(auto, unfolding(rules::specs::Memory::blocks_for, rules::specs::Memory::divided_up, rules::specs::Memory::block_bytes))]
pub fn blocks_for(config: Config, size: u16) -> u16
    ensures { result ≡ blocks_for config size }
{
    size.div_ceil(BLOCK_BYTES)
}

// The byte n above another. `above`, `below`, `further` and `before` are no `+` and `-`: a call can be searched for the number inside an address
// that is handed as a distance (tools/addresses.py), a sum can't.
pub fn above(a: RamByte, n: u16) -> RamByte
    requires { a.0 + n < 65536 }
    ensures { result ≡ ram_byte (a.0 + n) }
{
    RamByte(a.0 + n)
}

// The byte n below another.
pub fn below(a: RamByte, n: u16) -> RamByte
    requires { n ≤ a.0 }
    ensures { result ≡ ram_byte (a.0 - n) }
{
    RamByte(a.0 - n)
}

// The last byte of RAM, which bounds the stack of a fresh state.
pub fn last_byte() -> RamByte
    ensures { result ≡ ram_byte (ram_bytes - 1) }
{
    RamByte(RAM_BYTES - 1)
}

// The zero of a refused set-up's state.
pub fn zero_byte() -> RamByte
    ensures { result ≡ ram_byte 0 }
{
    RamByte::default()
}

pub fn zero_word() -> FlashWord
    ensures { result ≡ flash_word 0 }
{
    FlashWord::default()
}

// Sixteen bits of a frame, a script or a slot, low byte first.
pub fn joined(low: u8, high: u8) -> u16
    ensures { result ≡ low + 256 * high }
{
    u16::from_le_bytes([low, high])
}

pub fn byte_of(low: u8, high: u8) -> RamByte
    ensures { result ≡ ram_byte (low + 256 * high) }
{
    RamByte::from(joined(low, high))
}

pub fn word_of(low: u8, high: u8) -> FlashWord
    ensures { result ≡ flash_word (low + 256 * high) }
{
    FlashWord::from(joined(low, high))
}

// An entry of a jump table; public, and so it stays beside From.
pub fn entry(word: u16) -> FlashWord
    ensures { result ≡ flash_word word }
{
    FlashWord::from(word)
}
