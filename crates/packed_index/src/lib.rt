// The names of the packed pool, found along the chains of their hashes, and one more behind them. One lent array holds the heads of
// the chains, how many names there are, how many bytes they have, how hard they are for the plain hash, a stretch of the pool that
// repeats itself, the places seen, and five words for each name, counted from 1. Zeros are the index of no names.
#![tactic(auto)]

ghost use Rattle.std.specs.Prelude.{◌≡◌, List, ℕ, ◌+◌, ◌*◌, ◌≤◌, ◌<◌, length, get_or};
ghost use Rattle.chains.specs.Chains.{latest};
ghost use Rattle.packed_index.specs.Index.{USED, SLOTS, ENTRIES, WIDTH, count_of, word, seen, name_at, is_named, Chains, HasRoom, followed};

use rules::{NameId, Offset, Place};

const BUCKETS: usize = 1024;

// Behind the heads, how many names there are and how many bytes they have; how hard they are; which of the places seen makes room
// for the next long one; of a stretch of the pool where it starts, how many bytes from there on stand once more, and how many bytes
// further on they do; the places seen, three words each; and the words of number 0, which is no name.
const COUNT: usize = BUCKETS;

pub const USED: usize = COUNT + 1;

pub const HARD: usize = USED + 1;

pub const NEXT: usize = HARD + 1;

pub const START: usize = NEXT + 1;

pub const SIZE: usize = START + 1;

pub const STEP: usize = SIZE + 1;

pub const PLACES: usize = STEP + 1;

pub const SLOTS: usize = 1024;

const ENTRIES: usize = PLACES + 3 * SLOTS;

// The words of a name: where it stands in the pool that is packed, its hash and its link, and its mark, one more than where it
// starts in the packed pool.
pub const WIDTH: usize = 5;

const OFFSET: usize = 0;

const LENGTH: usize = 1;

const HASH: usize = 2;

const LINK: usize = 3;

pub const MARK: usize = 4;

// The words of an index of no names.
pub const EMPTY_WORDS: usize = ENTRIES + WIDTH;

// What a search found: the number of the name, 0 where there is none, and how many others it went past.
#[derive(Clone, Copy)]
pub struct Found {
    pub number: NameId,
    pub others: usize,
}

// A word of a name.
pub fn word(index: &[u16], number: NameId, k: usize) -> u16
    requires { ENTRIES + WIDTH * number.0 + k < length index.now }
    ensures { result ≡ word index.now number.0 k }
{
    index[ENTRIES + WIDTH * number.0 as usize + k]
}

// A word of a place seen.
pub fn seen(index: &[u16], slot: usize, k: usize) -> u16
    requires { (slot < SLOTS) × (k < 3) × (ENTRIES ≤ length index.now) }
    ensures { result ≡ seen index.now slot k }
{
    index[PLACES + 3 * slot + k]
}

// The number of a name with this hash.
pub fn find(index: &[u16], pool: &[u8], name: &[u8], hash: u16) -> Found
    requires { (hashed : List ℕ → ℕ) × Chains hashed index.now pool.now × (hash ≡ hashed name.now) }
    ensures { result.number.0 ≡ latest (is_named index.now pool.now name.now) (count_of index.now) }
{
    let mut at = index[hash as usize % BUCKETS];
    let mut others = 0;
    while at > 0 {
        if is_named(index, pool, name, hash, NameId(at)) {
            return Found {
                number: NameId(at),
                others,
            };
        }
        at = word(index, NameId(at), LINK);
        others += 1;
    }
    Found {
        number: NameId(at),
        others,
    }
}

// The number has this name.
fn is_named(index: &[u16], pool: &[u8], name: &[u8], hash: u16, number: NameId) -> bool
    requires by_index { (hashed : List ℕ → ℕ) × Chains hashed index.now pool.now × (hash ≡ hashed name.now) }
    requires number_nonzero { (0 < number.0) × (number.0 ≤ count_of index.now) }
    ensures { result ≡ is_named index.now pool.now name.now number.0 }
{
    if word(index, number, HASH) != hash {
        return false;
    }
    if word(index, number, LENGTH) as usize != name.len() {
        return false;
    }
    let own = name_of(index, pool, number);
    names::same(own, name)
}

// The name of a number.
fn name_of<'p>(index: &[u16], pool: &'p [u8], number: NameId) -> &'p [u8]
    requires { ENTRIES + WIDTH * number.0 + WIDTH ≤ length index.now }
    ensures { result.now ≡ name_at index.now pool.now number.0 }
{
    let offset = Offset(word(index, number, OFFSET) as u32);
    pool::part(pool, offset, word(index, number, LENGTH) as u32)
}

// Enters the name at a place behind the others.
pub fn enter(index: &mut [u16], place: Place, hash: u16)
    requires has_room { HasRoom index.old }
    requires offset_bound { (place.offset.0 < 65536) × (get_or index.old USED 0 + 1 < 65536) × (get_or index.old USED 0 + place.length < 65536) }
    ensures { index.new ≡ followed index.old place.offset.0 place.length hash }
{
    let number = index[COUNT] + 1;
    let bucket = hash as usize % BUCKETS;
    let at = ENTRIES + WIDTH * number as usize;
    let link = index[bucket];
    let used = index[USED];
    index[at + OFFSET] = place.offset.0 as u16;
    index[at + LENGTH] = place.length as u16;
    index[at + HASH] = hash;
    index[at + LINK] = link;
    index[at + MARK] = used + 1;
    index[bucket] = number;
    index[COUNT] = number;
    index[USED] = used + place.length as u16;
}
