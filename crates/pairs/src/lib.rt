// Parts of two pools, held against each other. A pair of places whose bytes were found equal is remembered in a slot, and
// its bytes are not looked at again as long as no other pair takes the slot; short parts are compared each time. The slots
// are one lent array; zeros remember the two empty parts.
#![tactic(auto)]

ghost use Rattle.std.specs.Prelude.{◌≡◌, true, ◌&&◌, ◌≤◌, ◌<◌, length, eqb};
ghost use Rattle.rules.specs.Lists.{same_bytes};
ghost use Rattle.rules.specs.Table.{part};
ghost use Rattle.pairs.specs.Pairs.{SLOTS, WORDS, FIRST, SECOND, LENGTH, pair_at, Alike, Within, Pairs, remembered};

use rules::Place;

// The slots: the two offsets of a pair, and its length.
const SLOTS: usize = 512;

pub const WORDS: usize = 3 * SLOTS;

const FIRST: usize = 0;

const SECOND: usize = 1;

const LENGTH: usize = 2;

// Parts of fewer bytes are compared each time.
const SHORT: u32 = 64;

// The other pool begins with the pool.
pub fn begin_alike(pool: &[u8], other: &[u8]) -> bool
    ensures { result ≡ true → Alike pool.now other.now }
{
    if other.len() < pool.len() {
        return false;
    }
    names::same(&other[..pool.len()], pool)
}

// The part at a place of the other pool is that at a place of the pool. In pools that are known to begin alike the same
// place is the same part.
pub fn same(
    pairs: &mut [u16],
    pool: &[u8],
    other: &[u8],
    alike: bool,
    first: Place,
    second: Place,
) -> bool
    requires pairs { Pairs pairs.old pool.now other.now }
    requires alike { alike ≡ true → Alike pool.now other.now }
    requires within { Within pool.now first.offset.0 first.length }
    requires within_2 { Within other.now second.offset.0 second.length }
    ensures value { result ≡ same_bytes (part other.now second.offset.0 second.length) (part pool.now first.offset.0 first.length) }
    ensures pairs_2 { Pairs pairs.new pool.now other.now }
{
    if first.length != second.length {
        return false;
    }
    if first.length == 0 {
        return true;
    }
    if alike & (first.offset.0 == second.offset.0) {
        return true;
    }
    if first.length < SHORT {
        return same_bytes(pool, other, first, second);
    }
    let slot = slot_of(first, second);
    if is_known(pairs, slot, first, second) {
        return true;
    }
    let there = pool::part(other, second.offset, second.length);
    if !names::same(there, pool::part(pool, first.offset, first.length)) {
        return false;
    }
    remember(pairs, slot, first, second);
    true
}

// The parts at two places of one length are equal.
fn same_bytes(pool: &[u8], other: &[u8], first: Place, second: Place) -> bool
    requires within { (Within pool.now first.offset.0 first.length) × (Within other.now second.offset.0 second.length) }
    requires length_value { first.length ≡ second.length }
    ensures { result ≡ same_bytes (part other.now second.offset.0 second.length) (part pool.now first.offset.0 first.length) }
{
    let here = first.offset.0 as usize;
    let there = second.offset.0 as usize;
    let size = first.length as usize;
    short_values::same(&other[there..there + size], &pool[here..here + size])
}

// The slot of a pair of places.
fn slot_of(first: Place, second: Place) -> usize
    requires { (first.offset.0 < 65536) × (first.length < 65536) × (second.offset.0 < 65536) }
    ensures { result < SLOTS }
{
    let offsets = first.offset.0 as usize + 4 * second.offset.0 as usize;
    (offsets + 7 * first.length as usize) % SLOTS
}

// The slot remembers this pair, whose lengths are equal.
fn is_known(pairs: &[u16], slot: usize, first: Place, second: Place) -> bool
    requires { (slot < SLOTS) × (WORDS ≤ length pairs.now) }
    ensures { result ≡ (eqb (pair_at pairs.now slot FIRST) first.offset.0 && eqb (pair_at pairs.now slot SECOND) second.offset.0 && eqb (pair_at pairs.now slot LENGTH) first.length) }
{
    (pair_word(pairs, slot, FIRST) as u32 == first.offset.0)
        & (pair_word(pairs, slot, SECOND) as u32 == second.offset.0)
        & (pair_word(pairs, slot, LENGTH) as u32 == first.length)
}

// A word of a slot.
fn pair_word(pairs: &[u16], slot: usize, k: usize) -> u16
    requires { (slot < SLOTS) × (k < 3) × (WORDS ≤ length pairs.now) }
    ensures { result ≡ pair_at pairs.now slot k }
{
    pairs[3 * slot + k]
}

// Remembers a pair of places, whose lengths are equal.
fn remember(pairs: &mut [u16], slot: usize, first: Place, second: Place)
    requires slot_bound { (slot < SLOTS) × (WORDS ≤ length pairs.old) }
    requires offset_bound { (first.offset.0 < 65536) × (first.length < 65536) × (second.offset.0 < 65536) }
    ensures { pairs.new ≡ remembered pairs.old slot first.offset.0 second.offset.0 first.length }
{
    pairs[3 * slot + FIRST] = first.offset.0 as u16;
    pairs[3 * slot + SECOND] = second.offset.0 as u16;
    pairs[3 * slot + LENGTH] = first.length as u16;
}
