// For each block of a pool, a place up to which every byte from the start of the block on is one of a name: with it a
// long name is judged by the bytes of a block or two. Zeros tell nothing.
#![tactic(auto)]

ghost use Rattle.std.specs.Prelude.{◌≡◌, ◌+◌, ◌≤◌, ◌<◌, length};
ghost use Rattle.rules.specs.Lists.{all_of};
ghost use Rattle.rules.specs.Refusals.{is_name_byte, good_name};
ghost use Rattle.marks.specs.Marks.{MOST, between};
ghost use Rattle.ends.specs.Ends.{BLOCK, WORDS, Reach, Ended};

use rules::Offset;

pub const BLOCK: usize = 256;

// The words of any pool: one for each block.
pub const WORDS: usize = 130;

// Finds the ends of a pool, of names with or without colons.
pub fn make(ends: &mut [u16], pool: &[u8], colons: bool)
    requires { (WORDS ≤ length ends.old) × (length pool.now ≤ MOST) }
    ensures ended { Ended colons pool.now ends.new }
    ensures ends_len_unchanged { length ends.new ≡ length ends.old }
{
    let mut end = pool.len();
    for k in (0..WORDS).rev() {
        end = reach_from(pool, BLOCK * k, end, colons);
        ends[k] = end as u16;
    }
}

// The bytes of the pool from start to end make a good name, or there are none.
pub fn good_part(ends: &[u16], pool: &[u8], start: usize, end: usize, colons: bool) -> bool
    requires ended { Ended colons pool.now ends.now }
    requires in_bounds { (WORDS ≤ length ends.now) × (length pool.now ≤ MOST) }
    requires start_le_end { (start ≤ end) × (end ≤ length pool.now) }
    ensures { result ≡ good_name colons (between pool.now start end) }
{
    let next = start / BLOCK + 1;
    let stop = BLOCK * next;
    if end <= stop {
        return good_names::good_name(&pool[start..end], colons);
    }
    reached_part(pool, start, stop, index(ends[next]), end, colons)
}

// The same of a part that goes on in the next block.
fn reached_part(
    pool: &[u8],
    start: usize,
    stop: usize,
    reach: usize,
    end: usize,
    colons: bool,
) -> bool
    requires reach { Reach colons pool.now stop reach }
    requires start_lt_stop { (start < stop) × (stop < end) × (end ≤ length pool.now) }
    ensures { result ≡ good_name colons (between pool.now start end) }
{
    if !good_names::good_name(&pool[start..stop], colons) {
        return false;
    }
    if end <= reach {
        return true;
    }
    if reach <= stop {
        return all_named(&pool[stop..end], colons);
    }
    all_named(&pool[reach..end], colons)
}

// Up to where the bytes from the start of a block are those of a name, where it is known from the next block on.
fn reach_from(pool: &[u8], start: usize, end: usize, colons: bool) -> usize
    requires start_bound { start < 65536 }
    requires reach { Reach colons pool.now (start + BLOCK) end }
    ensures { Reach colons pool.now start result }
{
    if all_named(pool::part(pool, Offset(start as u32), BLOCK as u32), colons) {
        return end;
    }
    start
}

// Every byte is one of a name.
fn all_named(bytes: &[u8], colons: bool) -> bool
    ensures { result ≡ all_of (is_name_byte colons) bytes.now }
{
    for byte in bytes {
        if !good_names::is_name_byte(*byte, colons) {
            return false;
        }
    }
    true
}

// A word as an index.
fn index(x: u16) -> usize
    ensures { result ≡ x }
{
    x as usize
}
