// The map by addresses: a block number stays in this crate.
ghost use Rattle.std.specs.Prelude.{true, ◌∷◌, ◌≡◌, ◌+◌, ◌-◌, ◌≤◌, ◌<◌, eqb, length, replicate};
ghost use Rattle.rules.specs.Memory.{ram_bytes, layout_of, codes_of, radix, start_of, block_of, map_byte, code_of, set_codes, free_code, owner_of};
ghost use Rattle.rules.specs.State.{good_config};
ghost use Rattle.rules.specs.Malloc.{lowest_run};
ghost use Rattle.rules.specs.Free.{segment_blocks};
ghost use Rattle.map.specs.Runs.{run_of};

use address::{block_of, start_of};
use good::GoodConfig;
use rules::{Config, Ram, RamByte};

// The code of the block that an address lies in.
pub fn code_at(config: Config, ram: &Ram, a: RamByte) -> u8
    requires from_bot { config.bot.0 ≤ a.0 }
    requires in_ram { map_byte (layout_of config) (block_of config a) < ram_bytes }
    ensures { result ≡ code_of (layout_of config) ram.now (block_of config a) }
{
    crate::code_of(config.bot, ram, block_of(config, a))
}

// Its owner.
pub fn owner_at(config: Config, ram: &Ram, a: RamByte) -> u8
    requires from_bot { config.bot.0 ≤ a.0 }
    requires in_ram { map_byte (layout_of config) (block_of config a) < ram_bytes }
    ensures { result ≡ owner_of (layout_of config) (code_of (layout_of config) ram.now (block_of config a)) }
{
    crate::owner_of(config, code_at(config, ram, a))
}

// Whether an address is the first of its block.
pub fn is_first(config: Config, a: RamByte) -> bool
    requires { config.bot.0 ≤ a.0 }
    ensures { result ≡ eqb (start_of config (block_of config a)) a.0 }
{
    start_of(config, block_of(config, a)) == a
}

// How many blocks a domain's segment has that starts with the block of a heap address.
pub fn segment_blocks(good: GoodConfig, ram: &Ram, a: RamByte, domain: u8) -> u16
    requires from_heap { good.config.heap.0 ≤ a.0 }
    requires below_safe { a.0 < good.config.safe.0 }
    requires owned { owner_of (layout_of good.config) (code_of (layout_of good.config) ram.now (block_of good.config a)) ≡ domain }
    ensures { result ≡ segment_blocks good.config (codes_of good.config ram.now) (block_of good.config a) }
{
    crate::segment_blocks(good, ram, block_of(good.config, a), domain)
}

// A run of n blocks from that of an address on: its first code, then the later one.
pub fn set_run(config: Config, ram: &mut Ram, a: RamByte, n: u16, first: u8, later: u8)
    requires from_bot { config.bot.0 ≤ a.0 }
    requires some { 0 < n }
    requires fits { map_byte (layout_of config) (block_of config a + (n - 1)) < ram_bytes }
    requires first_is_code { first < radix (layout_of config) }
    requires later_is_code { later < radix (layout_of config) }
    ensures { ram.new ≡ set_codes (layout_of config) ram.old (block_of config a) (first ∷ replicate (n - 1) later) }
{
    crate::set_run(config.bot, ram, block_of(config, a), n, first, later);
}

// n blocks from that of an address on made free.
pub fn set_free(config: Config, ram: &mut Ram, a: RamByte, n: u16)
    requires from_bot { config.bot.0 ≤ a.0 }
    requires some { 0 < n }
    requires fits { map_byte (layout_of config) (block_of config a + (n - 1)) < ram_bytes }
    ensures { ram.new ≡ set_codes (layout_of config) ram.old (block_of config a) (replicate n (free_code (layout_of config))) }
{
    crate::fill(config.bot, ram, block_of(config, a), n, crate::FREE);
}

// The lowest run of n free heap blocks.
pub fn lowest_run(good: GoodConfig, ram: &Ram, n: u16) -> Option<RamByte>
    requires some { 0 < n }
    ensures { result ≡ run_of good.config (lowest_run good.config (codes_of good.config ram.now) n) }
{
    let k = crate::lowest_run(good, ram, n)?;
    Some(start_of(good.config, k))
}
