// Section 2: the four addresses of a configuration.
ghost use Rattle.std.specs.Prelude.{◌≡◌, ◌&&◌, ◌+◌, ◌≤◌, ◌<◌};
ghost use Rattle.rules.specs.Memory.{ram_bytes, map_bytes};
ghost use Rattle.rules.specs.State.{ram_byte, multiples, bot_below_top, map_below_heap, heap_below_safe, safe_below_top, top_in_ram};

use address::are_multiples;
use rules::{Config, RamByte};

pub fn multiples(config: Config) -> bool
    ensures { result ≡ multiples config }
{
    are_multiples(config, config.bot, config.heap) && are_multiples(config, config.safe, config.top)
}

// Where the map ends.
#[tactic(auto, using(crate::proofs::Groups::end_fits), unfolding(rules::specs::Memory::map_bytes, rules::specs::Memory::blocks))]
fn map_end(config: Config) -> RamByte
    requires { (config.bot.0 < config.top.0) × (config.top.0 ≤ ram_bytes) }
    ensures { result ≡ ram_byte (config.bot.0 + map_bytes config) }
{
    let blocks = address::whole_blocks(config, config.top);
    address::above(config.bot, address::packing::map_bytes_for(config, blocks))
}

// Top is tested first, so that no sum or difference below can wrap.
pub fn in_order(config: Config) -> bool
    ensures { result ≡ (bot_below_top config && map_below_heap config && heap_below_safe config && safe_below_top config && top_in_ram config) }
{
    config.top.0 <= address::RAM_BYTES
        && config.safe <= config.top
        && config.heap <= config.safe
        && config.bot < config.top
        && map_end(config) <= config.heap
}
