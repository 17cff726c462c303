// For each block of a pool, how far no forbidden character starts from the start of the block on: with it a part of any
// length that holds none is told by the bytes of a block. One pass over the pool finds them.
#![tactic(auto)]

ghost use Rattle.std.specs.Prelude.{◌≡◌, true, ◌-◌, ◌≤◌, length, take, drop};
ghost use Rattle.rules.specs.Table.{MOST_BYTES};
ghost use Rattle.characters.specs.Characters.{forbidden_from};
ghost use Rattle.clean_parts.specs.Clean.{WORDS, Clean, Reached};

const BLOCK: usize = 256;

// The words of any pool: one for each block.
pub const WORDS: usize = 129;

// Finds how far each block of a pool reaches: to the next forbidden character, or to the end of the pool.
pub fn make(reaches: &mut [u16], pool: &[u8])
    requires { (WORDS ≤ length reaches.old) × (length pool.now ≤ MOST_BYTES) }
    ensures reached { Reached pool.now reaches.new }
    ensures reaches_len_unchanged { length reaches.new ≡ length reaches.old }
{
    let mut reach = 0;
    let blocks = pool.len() / BLOCK + 1;
    for k in 0..blocks {
        reach = reach_from(pool, BLOCK * k, reach);
        reaches[k] = reach as u16;
    }
}

// The bytes of the pool from start to end hold a forbidden character. A part that holds none is not read further than to the
// end of its first block.
pub fn holds_forbidden(reaches: &[u16], pool: &[u8], start: usize, end: usize) -> bool
    requires reached { Reached pool.now reaches.now }
    requires in_bounds { (WORDS ≤ length reaches.now) × (length pool.now ≤ MOST_BYTES) }
    requires start_le_end { (start ≤ end) × (end ≤ length pool.now) }
    ensures { result ≡ forbidden_from (take (end - start) (drop start pool.now)) }
{
    if is_clean(reaches, pool, start, end) {
        return false;
    }
    characters::holds_forbidden(&pool[start..end])
}

// No forbidden character starts from start up to end. What is not told to be so may be so.
fn is_clean(reaches: &[u16], pool: &[u8], start: usize, end: usize) -> bool
    requires reached { Reached pool.now reaches.now }
    requires in_bounds { (WORDS ≤ length reaches.now) × (length pool.now ≤ MOST_BYTES) }
    requires start_le_end { (start ≤ end) × (end ≤ length pool.now) }
    ensures { result ≡ true → Clean pool.now start end }
{
    let next = start / BLOCK + 1;
    let stop = BLOCK * next;
    if end <= stop {
        return first_forbidden(pool, start, end) == end;
    }
    if first_forbidden(pool, start, stop) == stop {
        return end <= index(reaches[next]);
    }
    false
}

// How far the block that begins at a place reaches, where it is known from an earlier place on.
fn reach_from(pool: &[u8], start: usize, reach: usize) -> usize
    requires start_in_bounds { (start ≤ length pool.now) × (reach ≤ length pool.now) }
    requires clean { Clean pool.now start reach }
    ensures { (result ≤ length pool.now) × Clean pool.now start result }
{
    if reach < start {
        return first_forbidden(pool, start, pool.len());
    }
    reach
}

// The first place from one place up to another at which a forbidden character starts; the other, where none does.
fn first_forbidden(pool: &[u8], from: usize, to: usize) -> usize
    requires { (from ≤ to) × (to ≤ length pool.now) }
    ensures { (result ≤ to) × Clean pool.now from result }
{
    for i in from..to {
        if characters::starts_forbidden(pool, i) {
            return i;
        }
    }
    to
}

// A word as an index.
fn index(x: u16) -> usize
    ensures { result ≡ x }
{
    x as usize
}
