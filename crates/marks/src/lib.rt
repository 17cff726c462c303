// Marks in a pool, one for each block of it: where the first sequence behind the start of the block begins, and a
// place behind it, mostly far, up to which the bytes are well-formed. With them a part of any length is judged by the
// bytes of a block or two. Zeros are marks that tell nothing.
#![tactic(auto)]

ghost use Rattle.std.specs.Prelude.{◌≡◌, ◌≤◌, ◌<◌, length};
ghost use Rattle.rules.specs.Utf8.{is_in, tail, well_formed};
ghost use Rattle.marks.specs.Marks.{MOST, WORDS, between, Start, Mark, Marked};

pub const BLOCK: usize = 128;

const BLOCKS: usize = 258;

// The words of the marks of any pool: start and end of each.
pub const WORDS: usize = 2 * BLOCKS;

// Marks a pool.
pub fn make(marks: &mut [u16], pool: &[u8])
    requires { (WORDS ≤ length marks.old) × (length pool.now ≤ MOST) }
    ensures marked { Marked pool.now marks.new }
    ensures marks_len_unchanged { length marks.new ≡ length marks.old }
{
    let mut start = pool.len();
    let mut end = pool.len();
    for k in (0..BLOCKS).rev() {
        let first = first_start(pool, BLOCK * k, start);
        end = reach_from(pool, first, start, end);
        start = first;
        marks[2 * k] = start as u16;
        marks[2 * k + 1] = end as u16;
    }
}

// The bytes of the pool from start to end are well-formed.
pub fn well_formed_part(marks: &[u16], pool: &[u8], start: usize, end: usize) -> bool
    requires marked { Marked pool.now marks.now }
    requires in_bounds { (WORDS ≤ length marks.now) × (length pool.now ≤ MOST) }
    requires start_le_end { (start ≤ end) × (end ≤ length pool.now) }
    ensures { result ≡ well_formed (between pool.now start end) }
{
    let k = start / BLOCK + 1;
    let first = index(marks[2 * k]);
    if first <= start {
        return utf8::well_formed(&pool[start..end]);
    }
    if end <= first {
        return utf8::well_formed(&pool[start..end]);
    }
    marked_part(pool, start, first, index(marks[2 * k + 1]), end)
}

// The same of a part with a mark in it.
fn marked_part(pool: &[u8], start: usize, first: usize, reach: usize, end: usize) -> bool
    requires mark { Mark pool.now first reach }
    requires start_le_first { (start ≤ first) × (first < end) × (end ≤ length pool.now) }
    ensures { result ≡ well_formed (between pool.now start end) }
{
    if !utf8::well_formed(&pool[start..first]) {
        return false;
    }
    if reach <= end {
        return utf8::well_formed(&pool[reach..end]);
    }
    !is_tail(pool[end])
}

// Up to where the bytes from first are well-formed, as far as the mark behind tells.
fn reach_from(pool: &[u8], first: usize, start: usize, end: usize) -> usize
    requires start { Start pool.now start first }
    requires mark { Mark pool.now start end }
    ensures { Mark pool.now first result }
{
    if utf8::well_formed(&pool[first..start]) {
        return end;
    }
    first
}

// The first place from i on, and before the limit, where no byte stands that only continues a sequence; else the limit.
// More than three that do are not well-formed, and are not gone through.
fn first_start(pool: &[u8], from: usize, limit: usize) -> usize
    requires { limit ≤ length pool.now }
    ensures { Start pool.now limit result }
{
    for i in from..limit {
        if !is_tail(pool[i]) {
            return i;
        }
        if i - from == 3 {
            return limit;
        }
    }
    limit
}

// The byte only continues a sequence.
fn is_tail(b: u8) -> bool
    ensures { result ≡ is_in tail b }
{
    (b >= 0x80) & (b <= 0xBF)
}

// A word as an index.
fn index(x: u16) -> usize
    ensures { result ≡ x }
{
    x as usize
}
