// The number of a name among those entered: of the name at a place, which is entered where it is new, and of any name. On
// the way it is counted how hard the names are for the plain hash.
#![tactic(auto)]

ghost use Rattle.std.specs.Prelude.{◌≡◌, ℕ, ◌+◌, ◌≤◌, ◌<◌, length, get_or, set};
ghost use Rattle.rules.specs.Table.{part};
ghost use Rattle.chains.specs.Chains.{latest};
ghost use Rattle.marks.specs.Marks.{MOST};
ghost use Rattle.kinds.specs.Kinds.{kind_of};
ghost use Rattle.tables.specs.Tables.{hash_in};
ghost use Rattle.entries.specs.Entries.{HARD, NAMES, WIDTH, last_number, tables_of, is_named, Entries, Interned, HasRoom, Within};

use keyed::Pair;
use rules::{NameId, Place};

// Names are hard for the plain hash where their long ones, of more than LONG bytes, have more than entries::MUCH blocks of
// LONG bytes that are read, or where a name stands behind too many others of its bucket. The places of an ordinary table,
// which do not overlap, never have so many.
const LONG: u32 = 64;

const MANY: usize = 32;

// The number of the name at a place; a new name is entered. What a long one costs is counted.
pub fn intern(entries: &mut [u16], pool: &[u8], place: Place) -> NameId
    requires entries { Entries entries.old pool.now }
    requires has_room { HasRoom entries.old }
    requires within { Within pool.now place.offset.0 place.length }
    requires length_nonzero { 0 < place.length }
    ensures entries_2 { Entries entries.new pool.now }
    ensures interned { Interned entries.old entries.new pool.now (part pool.now place.offset.0 place.length) result.0 }
{
    count(entries, place.length);
    number_at(entries, pool, place)
}

// The same, not counted.
fn number_at(entries: &mut [u16], pool: &[u8], place: Place) -> NameId
    requires entries { Entries entries.old pool.now }
    requires has_room { HasRoom entries.old }
    requires within { Within pool.now place.offset.0 place.length }
    requires length_nonzero { 0 < place.length }
    ensures entries_2 { Entries entries.new pool.now }
    ensures interned { Interned entries.old entries.new pool.now (part pool.now place.offset.0 place.length) result.0 }
{
    let name = pool::part(pool, place.offset, place.length);
    let hash = hash_at(entries, pool, place);
    let found = entries::find(entries, pool, name, hash);
    if found.number.0 > 0 {
        return found.number;
    }
    let kind = kind_at(entries, pool, place);
    let hard = hardness(entries, found.others);
    entries::enter(entries, place, hash, kind, hard)
}

// The number of a name, wherever its bytes stand; 0 where it is not entered.
pub fn number_of(entries: &[u16], pool: &[u8], name: &[u8]) -> NameId
    requires { Entries entries.now pool.now }
    ensures { result.0 ≡ latest (is_named entries.now pool.now name.now) (last_number entries.now) }
{
    let hash = tables::hash_of(&entries[entries::TABLES..entries::NAMES], name);
    entries::find(entries, pool, name, hash).number
}

// Makes the tables of the pool, in entries that are cleared: from then on names have the hash of this key.
pub fn key(entries: &mut [u16], pool: &[u8], bases: Pair)
    requires in_bounds { (NAMES + WIDTH ≤ length entries.old) × (length pool.now ≤ MOST) }
    requires by_index { (i : ℕ) → get_or entries.old i 0 ≡ 0 }
    ensures entries { Entries entries.new pool.now }
    ensures entries_after { last_number entries.new ≡ 0 }
{
    table_filling::make(&mut entries[entries::TABLES..entries::NAMES], pool, bases);
}

// The hash of the name at a place.
fn hash_at(entries: &[u16], pool: &[u8], place: Place) -> u16
    requires entries { Entries entries.now pool.now }
    requires within { Within pool.now place.offset.0 place.length }
    ensures { result ≡ hash_in (tables_of entries.now) (part pool.now place.offset.0 place.length) }
{
    let start = place.offset.0 as usize;
    tables::hash_at(
        &entries[entries::TABLES..entries::NAMES],
        pool,
        start,
        start + place.length as usize,
    )
}

// What the name at a place is.
fn kind_at(entries: &[u16], pool: &[u8], place: Place) -> u16
    requires entries { Entries entries.now pool.now }
    requires within { Within pool.now place.offset.0 place.length }
    ensures { result ≡ kind_of (part pool.now place.offset.0 place.length) }
{
    let start = place.offset.0 as usize;
    tables::kind_at(
        &entries[entries::TABLES..entries::NAMES],
        pool,
        start,
        start + place.length as usize,
    )
}

// Writes how hard the names are with one of this length. Nothing but time depends on it.
fn count(entries: &mut [u16], size: u32) -> u16
    requires { (NAMES ≤ length entries.old) × (size < 65536) }
    ensures { entries.new ≡ set entries.old HARD result }
{
    let hard = counted(entries, size);
    entries[entries::HARD] = hard;
    hard
}

// How hard the names are with one of this length.
fn counted(entries: &[u16], size: u32) -> u16
    requires { (NAMES ≤ length entries.now) × (size < 65536) }
{
    let hard = entries[entries::HARD];
    if size <= LONG {
        return hard;
    }
    if hard > entries::MUCH {
        return hard;
    }
    hard + (size / LONG) as u16
}

// How hard the names are with one more, behind so many others.
fn hardness(entries: &[u16], others: usize) -> u16
    requires { NAMES ≤ length entries.now }
{
    if others > MANY {
        return entries::MUCH + 1;
    }
    entries[entries::HARD]
}
