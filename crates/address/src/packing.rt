// How the map packs codes: two in a byte, here and in the map's own reader and writer.
ghost use Rattle.std.specs.Prelude.{◌≡◌, ◌≤◌};
ghost use Rattle.rules.specs.Memory.{ram_bytes, layout_of, map_bytes_for, map_byte};
ghost use Rattle.rules.specs.State.{ram_byte};
ghost use Rattle.address.specs.Places.{map_at, to_whole};

use rules::{Block, Config, RamByte};

pub const PER_BYTE: u16 = 2;

// How many map bytes hold the codes of n blocks: a sum in a wider type, since with the library's `div_ceil` in this place a store takes two
// instructions more, and malloc, free and change six.
#[tactic(auto, unfolding(rules::specs::Memory::map_bytes_for, rules::specs::Memory::divided_up, rules::specs::Memory::per_byte))]
pub fn map_bytes_for(config: Config, n: u16) -> u16
    ensures { result ≡ map_bytes_for (layout_of config) n }
{
    ((n as u32 + (PER_BYTE as u32 - 1)) / PER_BYTE as u32) as u16
}

// The byte of the map that holds a block's code; of a block behind a run it may be the one behind RAM.
#[tactic(auto, unfolding(rules::specs::Memory::map_byte, rules::specs::Memory::per_byte))]
pub fn map_byte(bot: RamByte, k: Block) -> RamByte
    requires { map_byte (map_at bot) k.0 ≤ ram_bytes }
    ensures { result ≡ ram_byte (map_byte (map_at bot) k.0) }
{
    crate::above(bot, k.0 / PER_BYTE)
}

// How many blocks there are from one on before the next whose code is the first of its byte.
#[tactic(auto, unfolding(crate::specs::Places::to_whole, rules::specs::Memory::per_byte))]
pub fn to_whole(bot: RamByte, k: Block) -> u16
    ensures { result ≡ to_whole (map_at bot) k.0 }
{
    (PER_BYTE - k.0 % PER_BYTE) % PER_BYTE
}
