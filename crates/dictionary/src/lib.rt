// A dictionary of names: each byte string that stands at a place of the pool gets a number, and two
// places get one number exactly where their bytes are equal. The dictionary is one lent array. Zeros
// are a dictionary in which only the empty name has a number, 0.
#![tactic(auto)]

ghost use Rattle.std.specs.Prelude.{◌≡◌, List, ℕ, ◌+◌, ◌*◌, ◌≤◌, ◌<◌, length, eqb, ◌&&◌};
ghost use Rattle.rules.specs.Table.{MOST_BYTES, part};
ghost use Rattle.kinds.specs.Kinds.{kind_of};
ghost use Rattle.entries.specs.Entries.{NAMES, WIDTH, Denotes, Interned, HasRoom, Within};
ghost use Rattle.dictionary.specs.Dictionary.{SLOTS, PLACES, OFFSET, LENGTH, seen, entries_of, last_of, is_hard, spelling, Dictionary, remembered};

use rules::{NameId, Place};

// The places seen: offset, length and number of each.
const SLOTS: usize = 1024;

pub const PLACES: usize = 3 * SLOTS;

const OFFSET: usize = 0;

const LENGTH: usize = 1;

const NUMBER: usize = 2;

// The words of a dictionary of the empty name alone, and of each number more.
pub const EMPTY_WORDS: usize = PLACES + entries::NAMES + WIDTH;

pub const WIDTH: usize = entries::WIDTH;

// The number of the name that stands at a place of the pool; a new name is entered.
pub fn number_of(dictionary: &mut [u16], pool: &[u8], place: Place) -> NameId
    requires dictionary { Dictionary dictionary.old pool.now }
    requires has_room { HasRoom (entries_of dictionary.old) }
    requires within { Within pool.now place.offset.0 place.length }
    ensures dictionary_2 { Dictionary dictionary.new pool.now }
    ensures interned { Interned (entries_of dictionary.old) (entries_of dictionary.new) pool.now (part pool.now place.offset.0 place.length) result.0 }
{
    if place.length == 0 {
        return NameId(0);
    }
    let known = recall(dictionary, place);
    if known.0 > 0 {
        return known;
    }
    let number = interning::intern(&mut dictionary[PLACES..], pool, place);
    remember(dictionary, slot_of(place), place, number);
    number
}

// The number of the name at a place, where this very place is remembered; else 0. The same place is
// the same part of the pool; other places tell nothing of a name, and its bytes decide.
pub fn recall(dictionary: &[u16], place: Place) -> NameId
    requires { PLACES ≤ length dictionary.now }
    ensures { (pool : List ℕ) → Dictionary dictionary.now pool → 0 < result.0 → Denotes (entries_of dictionary.now) pool result.0 (part pool place.offset.0 place.length) }
{
    let slot = slot_of(place);
    if is_seen(dictionary, slot, place) {
        return NameId(seen(dictionary, slot, NUMBER));
    }
    NameId(0)
}

// The last number given.
pub fn last(dictionary: &[u16]) -> NameId
    requires { PLACES + NAMES ≤ length dictionary.now }
    ensures { result.0 ≡ last_of dictionary.now }
{
    NameId(dictionary[PLACES + entries::LAST])
}

// The names are hard for the plain hash: long, or many of them in one bucket.
pub fn is_hard(dictionary: &[u16]) -> bool
    requires { PLACES + NAMES ≤ length dictionary.now }
    ensures { result ≡ is_hard dictionary.now }
{
    dictionary[PLACES + entries::HARD] > entries::MUCH
}

// Begins anew with the empty name alone, for names that are hard: they get the hash of a key that the table and its
// pool give.
pub fn harden(dictionary: &mut [u16], table: &[u32], pool: &[u8])
    requires { (PLACES + NAMES + WIDTH ≤ length dictionary.old) × (length pool.now ≤ MOST_BYTES) }
    ensures dictionary { Dictionary dictionary.new pool.now }
    ensures dictionary_bound { last_of dictionary.new ≤ 0 }
{
    let key = hash_keys::key_of(table, pool);
    dictionary.fill(0);
    interning::key(&mut dictionary[PLACES..], pool, key);
}

// The name of a number.
pub fn name_of<'p>(dictionary: &[u16], pool: &'p [u8], number: NameId) -> &'p [u8]
    requires { PLACES + NAMES + WIDTH * number.0 + WIDTH ≤ length dictionary.now }
    ensures { result.now ≡ spelling dictionary.now pool.now number.0 }
{
    entries::name_of(&dictionary[PLACES..], pool, number)
}

// What the name of a number is.
pub fn name_kind(dictionary: &[u16], number: NameId) -> u16
    requires { PLACES + NAMES + WIDTH * number.0 + WIDTH ≤ length dictionary.now }
    ensures { (pool name : List ℕ) → Dictionary dictionary.now pool → Denotes (entries_of dictionary.now) pool number.0 name → result ≡ kind_of name }
{
    entries::word(&dictionary[PLACES..], number, entries::KIND)
}

// The slot of a place, by its offset alone. The round that an offset is in counts too, so that names of four or eight
// bytes behind each other use all slots.
fn slot_of(place: Place) -> usize
    ensures { result < SLOTS }
{
    let offset = place.offset.0 as usize;
    (offset + offset / SLOTS) % SLOTS
}

// The slot remembers this place.
fn is_seen(dictionary: &[u16], slot: usize, place: Place) -> bool
    requires { (slot < SLOTS) × (PLACES ≤ length dictionary.now) }
    ensures { result ≡ (eqb (seen dictionary.now slot OFFSET) place.offset.0 && eqb (seen dictionary.now slot LENGTH) place.length) }
{
    (seen(dictionary, slot, OFFSET) as u32 == place.offset.0)
        & (seen(dictionary, slot, LENGTH) as u32 == place.length)
}

// A word of a slot.
fn seen(dictionary: &[u16], slot: usize, k: usize) -> u16
    requires { (slot < SLOTS) × (k < 3) × (PLACES ≤ length dictionary.now) }
    ensures { result ≡ seen dictionary.now slot k }
{
    dictionary[3 * slot + k]
}

// Remembers the number of a place.
fn remember(dictionary: &mut [u16], slot: usize, place: Place, number: NameId)
    requires slot_bound { (slot < SLOTS) × (PLACES ≤ length dictionary.old) }
    requires offset_bound { (place.offset.0 < 65536) × (place.length < 65536) }
    ensures { dictionary.new ≡ remembered dictionary.old slot place.offset.0 place.length number.0 }
{
    dictionary[3 * slot + OFFSET] = place.offset.0 as u16;
    dictionary[3 * slot + LENGTH] = place.length as u16;
    dictionary[3 * slot + NUMBER] = number.0;
}
