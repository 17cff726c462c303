// The entries of a dictionary: the heads of the chains, the last number given, how hard the names are for the plain
// hash, the tables of the pool, and five words for each number. They are found along the chain of a hash, and take one
// more.
#![tactic(auto)]

ghost use Rattle.std.specs.Prelude.{◌≡◌, ◌+◌, ◌*◌, ◌≤◌, ◌<◌, length};
ghost use Rattle.chains.specs.Chains.{latest};
ghost use Rattle.tables.specs.Tables.{hash_in};
ghost use Rattle.entries.specs.Entries.{NAMES, WIDTH, last_number, tables_of, word, name_at, is_named, Entries, HasRoom, entered};

use rules::{NameId, Offset, Place};

const BUCKETS: usize = 1024;

// Behind the heads, the last number given, how hard the names are, and the tables; behind those, the words of
// number 0.
pub const LAST: usize = BUCKETS;

pub const HARD: usize = LAST + 1;

pub const TABLES: usize = HARD + 1;

pub const NAMES: usize = TABLES + tables::WORDS;

// The words of a number: where its name stands in the pool, its hash and its link, and what it is.
pub const WIDTH: usize = 5;

const OFFSET: usize = 0;

const LENGTH: usize = 1;

const HASH: usize = 2;

const LINK: usize = 3;

pub const KIND: usize = 4;

// Names are hard for the plain hash where the word that tells how hard they are is more than this.
pub const MUCH: u16 = 512;

// What a search found: the number of the name, 0 where it is not entered, and how many others it went past.
#[derive(Clone, Copy)]
pub struct Found {
    pub number: NameId,
    pub others: usize,
}

// A word of a number.
pub fn word(entries: &[u16], number: NameId, k: usize) -> u16
    requires { NAMES + WIDTH * number.0 + k < length entries.now }
    ensures { result ≡ word entries.now number.0 k }
{
    entries[NAMES + WIDTH * number.0 as usize + k]
}

// The name of a number.
pub fn name_of<'p>(entries: &[u16], pool: &'p [u8], number: NameId) -> &'p [u8]
    requires { NAMES + WIDTH * number.0 + WIDTH ≤ length entries.now }
    ensures { result.now ≡ name_at entries.now pool.now number.0 }
{
    let offset = Offset(word(entries, number, OFFSET) as u32);
    pool::part(pool, offset, word(entries, number, LENGTH) as u32)
}

// The number of a name with this hash.
pub fn find(entries: &[u16], pool: &[u8], name: &[u8], hash: u16) -> Found
    requires entries { Entries entries.now pool.now }
    requires hash_value { hash ≡ hash_in (tables_of entries.now) name.now }
    ensures { result.number.0 ≡ latest (is_named entries.now pool.now name.now) (last_number entries.now) }
{
    let mut at = entries[hash as usize % BUCKETS];
    let mut others = 0;
    while at > 0 {
        if is_named(entries, pool, name, hash, NameId(at)) {
            return Found {
                number: NameId(at),
                others,
            };
        }
        at = word(entries, NameId(at), LINK);
        others += 1;
    }
    Found {
        number: NameId(at),
        others,
    }
}

// The number has this name.
fn is_named(entries: &[u16], pool: &[u8], name: &[u8], hash: u16, number: NameId) -> bool
    requires entries { Entries entries.now pool.now }
    requires hash_value { hash ≡ hash_in (tables_of entries.now) name.now }
    requires number_nonzero { (0 < number.0) × (number.0 ≤ last_number entries.now) }
    ensures { result ≡ is_named entries.now pool.now name.now number.0 }
{
    if word(entries, number, HASH) != hash {
        return false;
    }
    if word(entries, number, LENGTH) as usize != name.len() {
        return false;
    }
    let own = name_of(entries, pool, number);
    names::same(own, name)
}

// Enters a name as the next number.
pub fn enter(entries: &mut [u16], place: Place, hash: u16, kind: u16, hard: u16) -> NameId
    requires has_room { HasRoom entries.old }
    requires offset_bound { (place.offset.0 < 65536) × (place.length < 65536) }
    ensures result_value { result.0 ≡ last_number entries.old + 1 }
    ensures entries_after { entries.new ≡ entered entries.old place.offset.0 place.length hash kind hard }
{
    let number = entries[LAST] + 1;
    let bucket = hash as usize % BUCKETS;
    let at = NAMES + WIDTH * number as usize;
    let link = entries[bucket];
    entries[at + OFFSET] = place.offset.0 as u16;
    entries[at + LENGTH] = place.length as u16;
    entries[at + HASH] = hash;
    entries[at + LINK] = link;
    entries[at + KIND] = kind;
    entries[HARD] = hard;
    entries[bucket] = number;
    entries[LAST] = number;
    NameId(number)
}
