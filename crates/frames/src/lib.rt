// Frames of the safe stack: pushed on the bytes used of the area that is lent, and the last one read. No other byte of RAM is in
// reach. An area and the bytes used stay two parameters: only_push and only_pop are about both.
#![tactic(auto)]

ghost use Rattle.std.specs.Prelude.{◌≡◌, ◌+◌, ◌≤◌, ◌<◌, length, take};
ghost use Rattle.std.proofs.lemmas.List.Edits.{sets};
ghost use Rattle.rules.specs.Memory.{ram_bytes};
ghost use Rattle.rules.specs.Bytes.{low, high};
ghost use Rattle.rules.specs.Call.{frame_bytes};
ghost use Rattle.rules.specs.Return.{read_frame};
ghost use Rattle.rules.specs.declared.Frame.TheVariants.{Local, Cross};

use address::domains::TRUSTED;
use rules::{FlashWord, Frame, RamByte};

// How many bytes a local frame takes, and a cross-domain one: frames of other bytes, so each has its function that writes it.
pub const LOCAL_BYTES: u16 = 3;

pub const CROSS_BYTES: u16 = 5;

// A tag is a number: document 01 fixes 255 and 0 to 7, and a domain is its own tag.
const LOCAL_TAG: u8 = 255;

pub fn low(n: u16) -> u8
    ensures { result ≡ low n }
{
    n.to_le_bytes()[0]
}

pub fn high(n: u16) -> u8
    ensures { result ≡ high n }
{
    n.to_le_bytes()[1]
}

#[tactic(auto, using(crate::proofs::Written::copied))]
fn push_local(area: &mut [u8], used: u16, site: FlashWord)
    requires { (used + length (frame_bytes (Local site)) ≤ length area.old) × (length area.old ≤ ram_bytes) }
    ensures { area.new ≡ sets area.old used (frame_bytes (Local site)) }
{
    let at = used as usize;
    area[at..at + 3].copy_from_slice(&[low(site.0), high(site.0), LOCAL_TAG]);
}

#[tactic(auto, using(crate::proofs::Written::copied))]
fn push_cross(area: &mut [u8], used: u16, site: FlashWord, bound: RamByte, domain: u8)
    requires { (used + length (frame_bytes (Cross site bound domain)) ≤ length area.old) × (length area.old ≤ ram_bytes) }
    ensures { area.new ≡ sets area.old used (frame_bytes (Cross site bound domain)) }
{
    let at = used as usize;
    area[at..at + 5].copy_from_slice(&[
        low(site.0),
        high(site.0),
        low(bound.0),
        high(bound.0),
        domain,
    ]);
}

pub fn push(area: &mut [u8], used: u16, frame: Frame)
    requires { (used + length (frame_bytes frame) ≤ length area.old) × (length area.old ≤ ram_bytes) }
    ensures { area.new ≡ sets area.old used (frame_bytes frame) }
{
    match frame {
        Frame::Local(site) => push_local(area, used, site),
        Frame::Cross(site, bound, domain) => push_cross(area, used, site, bound, domain),
        Frame::Damage => {}
    }
}

// The tag, below the bytes used, says which frame is the last.
#[tactic(auto, unfolding(rules::specs::Return::read_frame))]
pub fn pop(area: &[u8], used: u16) -> Frame
    requires { (0 < used) × (used ≤ length area.now) }
    ensures { result ≡ read_frame (take used area.now) }
{
    let tag = area[(used - 1) as usize];
    match tag {
        LOCAL_TAG if LOCAL_BYTES <= used => {
            let at = (used - LOCAL_BYTES) as usize;
            Frame::Local(address::word_of(area[at], area[at + 1]))
        }
        0..=TRUSTED if CROSS_BYTES <= used => {
            let at = (used - CROSS_BYTES) as usize;
            Frame::Cross(
                address::word_of(area[at], area[at + 1]),
                address::byte_of(area[at + 2], area[at + 3]),
                tag,
            )
        }
        _ => Frame::Damage,
    }
}
