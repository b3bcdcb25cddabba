// Section 3: jt and the eight code ranges of a configuration.
ghost use Rattle.std.specs.Prelude.{◌≡◌, ◌&&◌, ◌<◌, ℕ, List, leb};
ghost use Rattle.rules.specs.declared.Range.{Range};
ghost use Rattle.rules.specs.Code.{domains, ordered, apart, all_apart};
ghost use Rattle.rules.specs.State.{jt_in_flash, ranges_ordered, ranges_apart};
ghost use Rattle.good.specs.Reads.{Reads};

use rules::{Config, FlashWord, Range};

// The jump tables end where flash does: a number, since no address is made outside crate address (tools/addresses.py).
const LAST_JT: u16 = 64512;

const DOMAINS: u8 = 8;

pub fn jt_in_flash(config: Config) -> bool
    ensures { result ≡ jt_in_flash config }
{
    config.jt.0 <= LAST_JT
}

pub fn apart(r: Range, q: Range) -> bool
    ensures { result ≡ apart r q }
{
    r.start == r.end || q.start == q.end || r.end <= q.start || q.end <= r.start
}

fn ordered(r: Range, jt: FlashWord) -> bool
    ensures { result ≡ (leb r.start.0 r.end.0 && leb r.end.0 jt.0) }
{
    r.start <= r.end && r.end <= jt
}

// Each ordered, ending at jt at the latest, and apart from those after it, in whatever order they lie, where `range_of` reads that of a domain.
pub fn in_any_order_by<F: Fn(u8) -> Range>(jt: FlashWord, range_of: F) -> bool
    requires callable { (d : ℕ) → d < domains → F.pre range_of d }
    requires reads { (ranges : List Range) × Reads (F.post range_of) ranges }
    ensures { (ranges : List Range) → Reads (F.post range_of) ranges → result ≡ (ordered jt ranges && all_apart ranges) }
{
    for d in 0..DOMAINS {
        let range = range_of(d);
        if !ordered(range, jt) {
            return false;
        }
        for e in d + 1..DOMAINS {
            if !apart(range, range_of(e)) {
                return false;
            }
        }
    }
    true
}

pub fn in_any_order(config: Config) -> bool
    ensures { result ≡ (ranges_ordered config && ranges_apart config) }
{
    in_any_order_by(config.jt, |d| config.ranges[d as usize])
}
