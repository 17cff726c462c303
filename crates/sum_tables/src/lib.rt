// A table of polynomials over a pool, a row for each block of 64 bytes: with it the polynomials of a part of any
// length cost the bytes of a block or two.
#![tactic(auto)]

ghost use Rattle.std.specs.Prelude.{◌≡◌, ◌+◌, ◌≤◌, ◌<◌, length, take};
ghost use Rattle.keyed.specs.Keyed.{PRIME, MOST, between, sum_from};
ghost use Rattle.sum_tables.specs.SumTables.{WORDS, number_at, put, put_row, Filled};

use keyed::Pair;

const BLOCK: usize = 64;

// The words of a row: two polynomials.
const WIDTH: usize = 4;

// The words of the table of any pool.
pub const WORDS: usize = 513 * WIDTH;

// Makes the table of a pool.
pub fn make(table: &mut [u16], pool: &[u8], bases: Pair)
    requires { (WORDS ≤ length table.old) × (length pool.now ≤ MOST) }
    ensures filled { Filled pool.now bases.one bases.two table.new }
    ensures table_len_unchanged { length table.new ≡ length table.old }
{
    let (blocks, _) = pool.as_chunks::<BLOCK>();
    let mut sums = Pair { one: 0, two: 0 };
    put_row(table, 0, sums.one, sums.two);
    for (k, block) in blocks.iter().enumerate() {
        sums = keyed::summed(block, bases, sums);
        put_row(table, k + 1, sums.one, sums.two);
    }
}

// Writes a row.
fn put_row(table: &mut [u16], k: usize, sum1: u32, sum2: u32)
    requires { (WORDS ≤ length table.old) × (k < 513) }
    ensures { table.new ≡ put_row table.old k sum1 sum2 }
{
    put(table, WIDTH * k, sum1);
    put(table, WIDTH * k + 2, sum2);
}

// Writes a number.
fn put(table: &mut [u16], i: usize, x: u32)
    requires { (i + 1 < length table.old) × (i < 65536) }
    ensures { table.new ≡ put table.old i x }
{
    table[i] = (x % 65536) as u16;
    table[i + 1] = (x / 65536) as u16;
}

// The polynomials of the bytes of the pool from start to end.
pub fn sums_of(table: &[u16], pool: &[u8], bases: Pair, start: usize, end: usize) -> Pair
    requires filled { Filled pool.now bases.one bases.two table.now }
    requires in_bounds { (WORDS ≤ length table.now) × (length pool.now ≤ MOST) }
    requires start_le_end { (start ≤ end) × (end ≤ length pool.now) }
    ensures one_value { result.one ≡ sum_from bases.one 0 (between pool.now start end) }
    ensures two_value { result.two ≡ sum_from bases.two 0 (between pool.now start end) }
{
    let whole = until(table, pool, bases, end);
    let before = until(table, pool, bases, start);
    let power1 = keyed::power(bases.one, end - start);
    let power2 = keyed::power(bases.two, end - start);
    Pair {
        one: keyed::taken_off(whole.one, before.one, power1),
        two: keyed::taken_off(whole.two, before.two, power2),
    }
}

// The polynomials of the first bytes of the pool.
fn until(table: &[u16], pool: &[u8], bases: Pair, end: usize) -> Pair
    requires filled { Filled pool.now bases.one bases.two table.now }
    requires in_bounds { (WORDS ≤ length table.now) × (length pool.now ≤ MOST) × (end ≤ length pool.now) }
    ensures one_value { (result.one ≡ sum_from bases.one 0 (take end pool.now)) × (result.one < PRIME) }
    ensures two_value { (result.two ≡ sum_from bases.two 0 (take end pool.now)) × (result.two < PRIME) }
{
    let k = end / BLOCK;
    let from = pair_at(table, WIDTH * k);
    keyed::summed(&pool[BLOCK * k..end], bases, from)
}

// Two numbers of a table, from word i on.
pub fn pair_at(table: &[u16], i: usize) -> Pair
    requires { (i + 3 < length table.now) × (i < 65536) }
    ensures { (result.one ≡ number_at table.now i) × (result.two ≡ number_at table.now (i + 2)) }
{
    let j = i + 2;
    Pair {
        one: wide(table[i]) + 65536 * wide(table[i + 1]),
        two: wide(table[j]) + 65536 * wide(table[j + 1]),
    }
}

fn wide(x: u16) -> u32
    ensures { (result ≡ x) × (result < 65536) }
{
    x as u32
}
