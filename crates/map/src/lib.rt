// The map: half-byte codes, written and read by quotient and remainder. That a code is one of 16, and 15 is free, stands in this file
// and nowhere else in the code.
// What a function needs stays a `requires`: that a byte lies in RAM is a fact of where the map begins, a block and a count together, and that a code
// is below 16 one of what is written alone, since owner_of and starts_segment take any byte. Readers lend RAM shared and writers whole, so where the
// map begins, RAM and a block are no one value; and blocks are halves of bytes, so a run is no slice.
#![tactic(auto, using(crate::proofs::Steps::steps), unfolding(rules::specs::Memory::start_of, rules::specs::Memory::safe_block, rules::specs::Memory::block_of, rules::specs::Memory::block_bytes, rules::specs::Memory::set_codes, rules::specs::Memory::is_domain, rules::specs::Memory::divided_up, rules::specs::Memory::per_byte, rules::specs::Memory::map_byte, rules::specs::Memory::map_bytes_for, rules::specs::Memory::map_digit, address::specs::Places::to_whole, rules::specs::Memory::radix, rules::specs::Memory::owner_of, rules::specs::Memory::start_code, rules::specs::Memory::later_code, rules::specs::Memory::free_code, rules::specs::Memory::starts_segment))]

ghost use Rattle.std.specs.Prelude.{true, false, ◌∷◌, ◌≢◌, ◌≡◌, ℕ, ◌+◌, ◌-◌, ◌*◌, ◌/◌, ◌%◌, ◌^◌, ◌≤◌, ◌<◌, length, get_or, min, replicate};
ghost use Rattle.rules.specs.Memory.{ram_bytes, four_bits, layout_of, radix_by, radix, per_byte, map_byte, map_digit, map_bytes_for, safe_block, code_of, codes_of, set_code, set_codes, is_domain, start_code, later_code, free_code_by, free_code, owner_of, starts_segment};
ghost use Rattle.address.specs.Places.{map_at, to_whole};
ghost use Rattle.rules.specs.State.{good_config};
ghost use Rattle.rules.specs.SetUp.{set_up_ram};
ghost use Rattle.rules.specs.Malloc.{lowest_run};
ghost use Rattle.rules.specs.Free.{segment_blocks};

pub mod by_address;

use address::domains::TRUSTED;
use address::packing::{PER_BYTE, map_byte, map_bytes_for, to_whole};
use address::{before, block_of, first_block, further};
use good::GoodConfig;
use rules::{Block, Config, Ram, RamByte};

const RADIX: u8 = 16;

// Free, or the start of a trusted segment: one number means both, so a code stays a number and is no enum.
const FREE: u8 = 15;

// What the digits of a map byte weigh: an even block's code is its low digit, an odd one's the high one.
const LOW: u8 = 1;

const HIGH: u8 = RADIX;

// The code of a block, whose digit of its byte weighs so much.
fn digit<const WEIGHT: u8>(bot: RamByte, ram: &Ram, k: Block) -> u8
    requires in_ram { map_byte (map_at bot) k.0 < ram_bytes }
    requires weighs { WEIGHT ≡ radix (map_at bot) ^ map_digit (map_at bot) k.0 }
    ensures { result ≡ code_of (map_at bot) ram.now k.0 }
{
    let at = map_byte(bot, k);
    ram[at.0 as usize] / WEIGHT % RADIX
}

// Of any block: which digit is asked once.
fn code_of(bot: RamByte, ram: &Ram, k: Block) -> u8
    requires in_ram { map_byte (map_at bot) k.0 < ram_bytes }
    ensures { result ≡ code_of (map_at bot) ram.now k.0 }
{
    if k.0 % PER_BYTE == 0 {
        digit::<LOW>(bot, ram, k)
    } else {
        digit::<HIGH>(bot, ram, k)
    }
}

// Its code made another; the other code of its byte stays.
fn set_digit<const WEIGHT: u8>(bot: RamByte, ram: &mut Ram, k: Block, code: u8)
    requires in_ram { map_byte (map_at bot) k.0 < ram_bytes }
    requires weighs { WEIGHT ≡ radix (map_at bot) ^ map_digit (map_at bot) k.0 }
    requires is_code { code < radix (map_at bot) }
    ensures { ram.new ≡ set_code (map_at bot) ram.old k.0 code }
{
    let at = map_byte(bot, k);
    let byte = ram[at.0 as usize];
    ram[at.0 as usize] = byte - byte / WEIGHT % RADIX * WEIGHT + code * WEIGHT;
}

fn set_code(bot: RamByte, ram: &mut Ram, k: Block, code: u8)
    requires in_ram { map_byte (map_at bot) k.0 < ram_bytes }
    requires is_code { code < radix (map_at bot) }
    ensures { ram.new ≡ set_code (map_at bot) ram.old k.0 code }
{
    if k.0 % PER_BYTE == 0 {
        set_digit::<LOW>(bot, ram, k, code);
    } else {
        set_digit::<HIGH>(bot, ram, k, code);
    }
}

// Of any byte, as promised: so no type of codes.
pub fn owner_of(config: Config, code: u8) -> u8
    ensures { result ≡ owner_of (layout_of config) code }
{
    code / 2
}

// An odd code that is not 15 starts a heap segment.
pub fn starts_segment(config: Config, code: u8) -> bool
    ensures { result ≡ starts_segment (layout_of config) code }
{
    code % 2 == 1 && code != FREE
}

// The two numbers of a domain, each by its own definition in the rules.
pub fn start_code(config: Config, domain: u8) -> u8
    requires { is_domain config domain ≡ true }
    ensures { result ≡ start_code (layout_of config) domain }
{
    2 * domain + 1
}

pub fn later_code(config: Config, domain: u8) -> u8
    requires { is_domain config domain ≡ true }
    ensures { result ≡ later_code (layout_of config) domain }
{
    2 * domain
}

// A byte whose codes are the same.
fn both(code: u8) -> u8
    requires { code < radix_by four_bits }
    ensures { result ≡ code * radix_by four_bits + code }
{
    code * RADIX + code
}

// The blocks of n whole bytes from an even one on, all of one code. By hand, on places of sixteen bits and up to `!=`: the library's fill is
// compiled to a call of memset, a name that an archive for C would need from outside.
fn fill_bytes(bot: RamByte, ram: &mut Ram, k: Block, n: u16, code: u8)
    requires first_of_byte { map_digit (map_at bot) k.0 ≡ 0 }
    requires fits { map_byte (map_at bot) k.0 + n ≤ ram_bytes }
    requires is_code { code < radix (map_at bot) }
    ensures { ram.new ≡ set_codes (map_at bot) ram.old k.0 (replicate (n * per_byte (map_at bot)) code) }
{
    let byte = both(code);
    let mut at = map_byte(bot, k).0;
    let end = at + n;
    while at != end {
        ram[at as usize] = byte;
        at += 1;
    }
}

// n blocks from an even one on, all of one code: whole bytes, and a last block alone in its byte.
fn fill_from_even(bot: RamByte, ram: &mut Ram, k: Block, n: u16, code: u8)
    requires first_of_byte { map_digit (map_at bot) k.0 ≡ 0 }
    requires fits { bot.0 + map_bytes_for (map_at bot) (k.0 + n) ≤ ram_bytes }
    requires is_code { code < radix (map_at bot) }
    ensures { ram.new ≡ set_codes (map_at bot) ram.old k.0 (replicate n code) }
{
    fill_bytes(bot, ram, k, n / PER_BYTE, code);
    if n % PER_BYTE != 0 {
        set_digit::<LOW>(bot, ram, further(k, n - 1), code);
    }
}

// The blocks from k on before an even one get the code: an odd one alone.
fn fill_to_even(bot: RamByte, ram: &mut Ram, k: Block, code: u8)
    requires in_ram { map_byte (map_at bot) k.0 < ram_bytes }
    requires is_code { code < radix (map_at bot) }
    ensures { ram.new ≡ set_codes (map_at bot) ram.old k.0 (replicate (to_whole (map_at bot) k.0) code) }
{
    if to_whole(bot, k) != 0 {
        set_digit::<HIGH>(bot, ram, k, code);
    }
}

// n blocks from k on, all of one code.
fn fill(bot: RamByte, ram: &mut Ram, k: Block, n: u16, code: u8)
    requires fits { bot.0 + map_bytes_for (map_at bot) (k.0 + n) ≤ ram_bytes }
    requires is_code { code < radix (map_at bot) }
    ensures { ram.new ≡ set_codes (map_at bot) ram.old k.0 (replicate n code) }
{
    if n == 0 {
        return;
    }
    fill_to_even(bot, ram, k, code);
    let odd = to_whole(bot, k);
    fill_from_even(bot, ram, further(k, odd), n - odd, code);
}

// A run of n blocks from k on: its first code, then the later one.
fn set_run(bot: RamByte, ram: &mut Ram, k: Block, n: u16, first: u8, later: u8)
    requires some { 0 < n }
    requires fits { map_byte (map_at bot) (k.0 + (n - 1)) < ram_bytes }
    requires first_is_code { first < radix (map_at bot) }
    requires later_is_code { later < radix (map_at bot) }
    ensures { ram.new ≡ set_codes (map_at bot) ram.old k.0 (first ∷ replicate (n - 1) later) }
{
    set_code(bot, ram, k, first);
    fill(bot, ram, further(k, 1), n - 1, later);
}

// How many bytes from one on, at most n, are as given.
fn bytes_alike(from: RamByte, ram: &Ram, n: u16, byte: u8) -> u16
    requires fits { from.0 + n ≤ ram_bytes }
    ensures at_most { result ≤ n }
    ensures alike { (i : ℕ) → i < result → get_or ram.now (from.0 + i) 0 ≡ byte }
    ensures ends { result < n → get_or ram.now (from.0 + result) 0 ≢ byte }
{
    let at = from.0 as usize;
    ram[at..at + n as usize]
        .iter()
        .take_while(|b| **b == byte)
        .count() as u16
}

// How many blocks from an even one on, at most n, have the code: by whole bytes, and then perhaps one more.
fn blocks_alike(bot: RamByte, ram: &Ram, k: Block, n: u16, code: u8) -> u16
    requires first_of_byte { map_digit (map_at bot) k.0 ≡ 0 }
    requires fits { bot.0 + map_bytes_for (map_at bot) (k.0 + n) ≤ ram_bytes }
    requires is_code { code < radix (map_at bot) }
    ensures at_most { result ≤ n }
    ensures alike { (i : ℕ) → i < result → code_of (map_at bot) ram.now (k.0 + i) ≡ code }
    ensures ends { result < n → code_of (map_at bot) ram.now (k.0 + result) ≢ code }
{
    let alike = bytes_alike(map_byte(bot, k), ram, n / PER_BYTE, both(code)) * PER_BYTE;
    if alike < n && digit::<LOW>(bot, ram, further(k, alike)) == code {
        alike + 1
    } else {
        alike
    }
}

// Whether the blocks from k on before an even one have the code: an odd one must, and stand before end.
fn alike_to_even(bot: RamByte, ram: &Ram, k: Block, end: Block, code: u8) -> bool
    requires in_ram { map_byte (map_at bot) k.0 < ram_bytes }
    ensures alike { result ≡ true → to_whole (map_at bot) k.0 ≢ 0 → (k.0 ≢ end.0) × (code_of (map_at bot) ram.now k.0 ≡ code) }
    ensures ends { result ≡ false → k.0 ≢ end.0 → code_of (map_at bot) ram.now k.0 ≢ code }
{
    to_whole(bot, k) == 0 || k != end && digit::<HIGH>(bot, ram, k) == code
}

// How many blocks a domain's segment that starts at k has: k and the heap blocks directly after it that continue the same owner.
fn segment_blocks(good: GoodConfig, ram: &Ram, k: Block, domain: u8) -> u16
    requires below_safe { k.0 < safe_block good.config }
    requires owned { owner_of (layout_of good.config) (code_of (layout_of good.config) ram.now k.0) ≡ domain }
    ensures { result ≡ segment_blocks good.config (codes_of good.config ram.now) k.0 }
{
    let config = good.config;
    let end = block_of(config, config.safe);
    let later = later_code(config, domain);
    let next = further(k, 1);
    if !alike_to_even(config.bot, ram, next, end, later) {
        return 1;
    }
    let even = further(next, to_whole(config.bot, next));
    even.0 - k.0 + blocks_alike(config.bot, ram, even, end.0 - even.0, later)
}

// Whether the first block of a byte is the last of n free ones, behind run others.
fn completes(byte: u8, run: u16, n: u16) -> bool
    requires { run < n }
    ensures last { result ≡ true → (run + 1 ≡ n) × (byte % radix_by four_bits ≡ free_code_by four_bits) }
    ensures not_last { result ≡ false → run + 1 ≡ n → byte % radix_by four_bits ≢ free_code_by four_bits }
{
    run + 1 == n && byte % RADIX == FREE
}

// How many free blocks a byte that is not all free ends with: its second, or none; a count that is added, and so no bool.
fn free_at_end(byte: u8) -> u16
    ensures at_most { result ≤ 1 }
    ensures one { result ≡ 1 → byte / radix_by four_bits ≡ free_code_by four_bits }
    ensures none { result ≡ 0 → byte / radix_by four_bits ≢ free_code_by four_bits }
{
    u16::from(byte / RADIX == FREE)
}

// How many free blocks there are from k on before an even one: an odd one alone; a count that is added, and so no bool.
fn free_to_even(bot: RamByte, ram: &Ram, k: Block) -> u16
    requires in_ram { map_byte (map_at bot) k.0 < ram_bytes }
    ensures at_most { result ≤ to_whole (map_at bot) k.0 }
    ensures free { 0 < result → code_of (map_at bot) ram.now k.0 ≡ free_code (map_at bot) }
    ensures not_free { result < to_whole (map_at bot) k.0 → code_of (map_at bot) ram.now k.0 ≢ free_code (map_at bot) }
{
    u16::from(to_whole(bot, k) != 0 && digit::<HIGH>(bot, ram, k) == FREE)
}

// The lowest run of n free heap blocks, two at a look from an even one on: it may start at `last` at the latest, k is the next to be looked
// at, and `at` its byte. Behind one that is not free the search starts anew.
// Document 01 names the nested loops over start block and run length, which the outer one leaves with what it found.
fn lowest_run(good: GoodConfig, ram: &Ram, n: u16) -> Option<Block>
    requires some { 0 < n }
    ensures { result ≡ lowest_run good.config (codes_of good.config ram.now) n }
{
    let config = good.config;
    let last = block_of(config, config.safe).0.checked_sub(n)?;
    let first = block_of(config, config.heap);
    let even = further(first, to_whole(config.bot, first));
    let mut run = free_to_even(config.bot, ram, first);
    let mut start = before(even, run);
    let mut at = map_byte(config.bot, even).0 as usize;
    let free = both(FREE);
    'search: loop {
        if start.0 > last {
            break 'search None;
        }
        let mut k = further(start, run);
        while run < n {
            let byte = ram[at];
            at += 1;
            k = further(k, PER_BYTE);
            if byte == free {
                run += PER_BYTE;
            } else if completes(byte, run, n) {
                break 'search Some(start);
            } else {
                run = free_at_end(byte);
                start = before(k, run);
                continue 'search;
            }
        }
        break 'search Some(start);
    }
}

// The code of an area's first block, if it has one.
fn set_first(bot: RamByte, ram: &mut Ram, k: Block, end: Block, code: u8)
    requires in_ram { k.0 < end.0 → map_byte (map_at bot) k.0 < ram_bytes }
    requires is_code { code < radix (map_at bot) }
    ensures { ram.new ≡ set_codes (map_at bot) ram.old k.0 (replicate (min 1 (end.0 - k.0)) code) }
{
    if k < end {
        set_code(bot, ram, k, code);
    }
}

// The map as set-up writes it: every byte the trusted domain's, and over that block 0, the heap, the first block of the safe stack area and
// the unused half of an odd number of blocks.
pub fn set_up_map(good: GoodConfig, ram: &mut Ram)
    ensures { ram.new ≡ set_up_ram (layout_of good.config) good.config ram.old }
{
    let config = good.config;
    let heap = block_of(config, config.heap);
    let safe = block_of(config, config.safe);
    let end = block_of(config, config.top);
    fill_bytes(
        config.bot,
        ram,
        first_block(),
        map_bytes_for(config, end.0),
        later_code(config, TRUSTED),
    );
    set_digit::<LOW>(config.bot, ram, first_block(), start_code(config, TRUSTED));
    fill(config.bot, ram, heap, safe.0 - heap.0, FREE);
    set_first(config.bot, ram, safe, end, start_code(config, TRUSTED));
    fill(config.bot, ram, end, to_whole(config.bot, end), FREE);
}
