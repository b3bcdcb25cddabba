// A configuration as bytes: bot, heap, safe, top, jt, then eight pairs start, end; in a slice from a place on, which differs at each call.
ghost use Rattle.std.specs.Prelude.{◌≡◌, ◌+◌, ◌<◌, ◌≤◌, length};
ghost use Rattle.rules.specs.Memory.{trusted};
ghost use Rattle.rules.specs.Code.{domains, range_of};
ghost use Rattle.rules.specs.Bytes.{config_bytes, ranges_place, range_at, ranges_at, config_at};

use crate::word_at;
use rules::{Config, Range};
use std::array;

// How many bytes it takes, and where its parts stand in them; bot is the first.
pub const BYTES: usize = 42;

const HEAP: usize = 2;

const SAFE: usize = 4;

const TOP: usize = 6;

pub const JT: usize = 8;

pub const RANGES: usize = 10;

// The range of domain d is d times this further on.
pub const RANGE_BYTES: usize = 4;

pub fn range_at(bytes: &[u8], at: usize) -> Range
    requires { at + 3 < length bytes.now }
    ensures { result ≡ range_at bytes.now at }
{
    Range {
        start: word_at(bytes, at),
        end: word_at(bytes, at + 2),
    }
}

// The code range of a domain, of the configuration that stands at a place.
pub fn code_range(bytes: &[u8], at: usize, domain: u8) -> Range
    requires { (at + config_bytes ≤ length bytes.now) × (domain ≤ trusted) }
    ensures { result ≡ range_of (config_at bytes.now at) domain }
{
    range_at(bytes, at + RANGES + RANGE_BYTES * (domain as usize))
}

// The code ranges of its eight domains.
fn ranges_at(bytes: &[u8], at: usize) -> [Range; 8]
    requires { at + config_bytes ≤ length bytes.now }
    ensures { result ≡ ranges_at bytes.now (ranges_place at) domains }
{
    array::from_fn(|d| code_range(bytes, at, d as u8))
}

pub fn config_at(bytes: &[u8], at: usize) -> Config
    requires { at + config_bytes ≤ length bytes.now }
    ensures { result ≡ config_at bytes.now at }
{
    Config {
        bot: word_at(bytes, at),
        heap: word_at(bytes, at + HEAP),
        safe: word_at(bytes, at + SAFE),
        top: word_at(bytes, at + TOP),
        jt: word_at(bytes, at + JT),
        ranges: ranges_at(bytes, at),
    }
}
