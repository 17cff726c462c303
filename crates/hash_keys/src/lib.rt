// The key of the hashes: two bases, from all words of the table and all bytes of the pool, so that whoever chooses names
// by their hashes changes the key. A step is a product of two halves of the state. A second pass begins with what the
// first left, so that a byte at the end of the pool counts from its first step on; a third one, since bytes that take
// two states to two others can be searched for by meeting in the middle.
#![tactic(auto)]

ghost use Rattle.std.specs.Prelude.{◌≤◌, ◌<◌, length};
ghost use Rattle.keyed.specs.Keyed.{PRIME, MOST};

use keyed::Pair;

const WORD: u64 = 4294967296;

const SPREAD: u64 = 2654435769;

const BASES: u64 = 4294967084;

// The key of a table and its pool: what three passes leave, made numbers from 2 to two less than the prime.
pub fn key_of(table: &[u32], pool: &[u8]) -> Pair
    requires { length pool.now ≤ MOST }
    ensures lt_one { (1 < result.one) × (result.one < PRIME) }
    ensures lt_two { (1 < result.two) × (result.two < PRIME) }
{
    let once = stirred(
        table,
        pool,
        Pair {
            one: pool.len() as u32,
            two: 1,
        },
    );
    let twice = stirred(table, pool, once);
    let thrice = stirred(table, pool, twice);
    Pair {
        one: base_of(thrice.one),
        two: base_of(thrice.two),
    }
}

fn base_of(x: u32) -> u32
    ensures { (1 < result) × (result < PRIME) }
{
    (x as u64 % BASES + 2) as u32
}

// A pass over a table and its pool.
fn stirred(table: &[u32], pool: &[u8], from: Pair) -> Pair
    requires { length pool.now ≤ MOST }
    ensures { (result.one < 4294967296) × (result.two < 4294967296) }
{
    by_bytes(pool, by_words(table, from))
}

fn by_words(table: &[u32], from: Pair) -> Pair
    ensures { (result.one < 4294967296) × (result.two < 4294967296) }
{
    let mut one = from.one;
    let mut two = from.two;
    for word in table {
        let next = stir(one, two, *word);
        one = next.one;
        two = next.two;
    }
    Pair { one, two }
}

fn by_bytes(pool: &[u8], from: Pair) -> Pair
    requires { length pool.now ≤ MOST }
    ensures { (result.one < 4294967296) × (result.two < 4294967296) }
{
    let mut one = from.one;
    let mut two = from.two;
    for k in 0..pool.len().div_ceil(4) {
        let next = stir(one, two, four(pool, 4 * k));
        one = next.one;
        two = next.two;
    }
    Pair { one, two }
}

// A step of a pass.
fn stir(one: u32, two: u32, word: u32) -> Pair
    ensures { (result.one < 4294967296) × (result.two < 4294967296) }
{
    let product = (one as u64 + word as u64) % WORD * (two as u64 + 1);
    Pair {
        one: ((product / WORD + two as u64) % WORD) as u32,
        two: ((product % WORD + one as u64 + SPREAD) % WORD) as u32,
    }
}

// The four bytes from i on as a number: the compiler makes one read of them. Bytes past the end count as 0.
fn four(pool: &[u8], i: usize) -> u32
    requires { (i < length pool.now) × (length pool.now ≤ MOST) }
    ensures { result < 4294967296 }
{
    if i + 4 <= pool.len() {
        return wide(pool[i])
            + 256 * wide(pool[i + 1])
            + 65536 * wide(pool[i + 2])
            + 16777216 * wide(pool[i + 3]);
    }
    byte(pool, i) + 256 * byte(pool, i + 1) + 65536 * byte(pool, i + 2)
}

// A byte of the pool; 0 past its end.
fn byte(pool: &[u8], i: usize) -> u32
    ensures { result < 256 }
{
    if i < pool.len() {
        return wide(pool[i]);
    }
    0
}

// A byte as a number.
fn wide(x: u8) -> u32
    ensures { result < 256 }
{
    x as u32
}
