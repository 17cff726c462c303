// The packed pool as it grows in an output. What stands in it is found by its bytes, and a new name is written behind the others. A
// place that was seen before is found at once.
#![tactic(auto)]

ghost use Rattle.std.specs.Prelude.{◌≡◌, List, ◌&&◌, ℕ, ◌+◌, ◌≤◌, ◌<◌, eqb, length, get_or, set};
ghost use Rattle.rules.specs.Table.{MOST_BYTES, part};
ghost use Rattle.buffers.specs.Writes.{written};
ghost use Rattle.marks.specs.Marks.{between};
ghost use Rattle.tables.specs.Tables.{hash_in, Tables};
ghost use Rattle.packed_index.specs.Index.{USED, HARD, SLOTS, ENTRIES, Chains, Marks, Index, HasRoom, seen, remembered};
ghost use Rattle.packed_pool.specs.Marking.{Within, is_hard, Marked, Noted, Added, Begun};

use packed_index::{HARD, NEXT, PLACES, SLOTS, USED};
use repeats::RECENT;
use rules::Place;

// Names are hard for the plain hash where their long ones, of more than LONG bytes, have more than MUCH blocks of LONG bytes that
// are read, or where a name stands behind too many others of its bucket.
const LONG: u32 = 64;

const MUCH: u16 = 512;

const MANY: usize = 32;

// The mark of the value at a place, by the place where it is remembered.
pub fn mark_value(
    tables: &[u16],
    pool: &[u8],
    place: Place,
    index: &mut [u16],
    out: &mut [u8],
    limit: usize,
    easy: bool,
) -> u16
    requires tables { Tables tables.now pool.now × Chains (hash_in tables.now) index.old pool.now × HasRoom index.old }
    requires within { Within pool.now place.offset.0 place.length × (limit ≤ MOST_BYTES) }
    ensures { (names : List (List ℕ)) → Index (hash_in tables.now) index.old pool.now names → Marked (hash_in tables.now) pool.now index.old index.new out.old out.new limit easy result names (part pool.now place.offset.0 place.length) }
{
    let known = recall(index, place);
    if known > 0 {
        return known;
    }
    if place.length > LONG {
        return mark_long(tables, pool, place, index, out, limit, easy);
    }
    let mark = mark_name(tables, pool, place, index, out, limit, easy);
    remember(index, place, mark);
    mark
}

// The same of a long value, which is counted until the names are hard. Long names need not be: the check has counted them.
fn mark_long(
    tables: &[u16],
    pool: &[u8],
    place: Place,
    index: &mut [u16],
    out: &mut [u8],
    limit: usize,
    easy: bool,
) -> u16
    requires tables { Tables tables.now pool.now × Chains (hash_in tables.now) index.old pool.now × HasRoom index.old }
    requires within { Within pool.now place.offset.0 place.length × (limit ≤ MOST_BYTES) }
    ensures { (names : List (List ℕ)) → Index (hash_in tables.now) index.old pool.now names → Marked (hash_in tables.now) pool.now index.old index.new out.old out.new limit easy result names (part pool.now place.offset.0 place.length) }
{
    if !easy {
        return mark_hard(tables, pool, place, index, out, limit, easy);
    }
    let hard = count(index, place.length);
    if hard > MUCH {
        return 0;
    }
    let mark = mark_name(tables, pool, place, index, out, limit, easy);
    remember(index, place, mark);
    mark
}

// The same where the names are hard. In a stretch of the pool that repeats itself the first place with the same bytes stands for it.
fn mark_hard(
    tables: &[u16],
    pool: &[u8],
    place: Place,
    index: &mut [u16],
    out: &mut [u8],
    limit: usize,
    easy: bool,
) -> u16
    requires tables { Tables tables.now pool.now × Chains (hash_in tables.now) index.old pool.now × HasRoom index.old }
    requires within { Within pool.now place.offset.0 place.length × (limit ≤ MOST_BYTES) }
    ensures { (names : List (List ℕ)) → Index (hash_in tables.now) index.old pool.now names → Marked (hash_in tables.now) pool.now index.old index.new out.old out.new limit easy result names (part pool.now place.offset.0 place.length) }
{
    if !repeats::holds(index, place) {
        return mark_first(tables, pool, place, index, out, limit, easy);
    }
    let first = repeats::first_place(index, place);
    let mark = mark_first(tables, pool, first, index, out, limit, easy);
    remember(index, place, mark);
    mark
}

// The same of such a place, by the places of long values that were seen last. Two places call it, so that it is not taken into the
// rows' loop.
fn mark_first(
    tables: &[u16],
    pool: &[u8],
    place: Place,
    index: &mut [u16],
    out: &mut [u8],
    limit: usize,
    easy: bool,
) -> u16
    requires tables { Tables tables.now pool.now × Chains (hash_in tables.now) index.old pool.now × HasRoom index.old }
    requires within { Within pool.now place.offset.0 place.length × (limit ≤ MOST_BYTES) }
    ensures { (names : List (List ℕ)) → Index (hash_in tables.now) index.old pool.now names → Marked (hash_in tables.now) pool.now index.old index.new out.old out.new limit easy result names (part pool.now place.offset.0 place.length) }
{
    let known = recall_recent(index, place);
    if known > 0 {
        return known;
    }
    let mark = mark_name(tables, pool, place, index, out, limit, easy);
    note(index, pool, place, mark);
    mark
}

// The mark of the name at a place: one more than where it starts in the packed pool. A new name is entered. It is 0 where a new one
// does not fit, and where the names are found to be hard, if that matters.
pub fn mark_name(
    tables: &[u16],
    pool: &[u8],
    place: Place,
    index: &mut [u16],
    out: &mut [u8],
    limit: usize,
    easy: bool,
) -> u16
    requires tables { Tables tables.now pool.now × Chains (hash_in tables.now) index.old pool.now × HasRoom index.old }
    requires within { Within pool.now place.offset.0 place.length × (limit ≤ MOST_BYTES) }
    ensures { (names : List (List ℕ)) → Index (hash_in tables.now) index.old pool.now names → Marked (hash_in tables.now) pool.now index.old index.new out.old out.new limit easy result names (part pool.now place.offset.0 place.length) }
{
    let start = place.offset.0 as usize;
    let end = start + place.length as usize;
    let name = &pool[start..end];
    let hash = hash_at(tables, pool, start, end);
    let found = packed_index::find(index, pool, name, hash);
    if found.number.0 > 0 {
        return packed_index::word(index, found.number, packed_index::MARK);
    }
    if easy & (found.others > MANY) {
        index[HARD] = MUCH + 1;
        return 0;
    }
    add_name(index, place, hash, name, out, limit)
}

// The hash of the name from start to end of the pool: that of `tables::hash_at`, which stays with the check alone, whose rows it
// is quickest for.
fn hash_at(tables: &[u16], pool: &[u8], start: usize, end: usize) -> u16
    requires tables { Tables tables.now pool.now }
    requires start_le_end { (start ≤ end) × (end ≤ length pool.now) × (length pool.now ≤ MOST_BYTES) }
    ensures { result ≡ hash_in tables.now (between pool.now start end) }
{
    if tables[tables::MADE] > 0 {
        return tables::keyed_hash_at(tables, pool, start, end);
    }
    hash::hash_of(&pool[start..end])
}

// Enters a name that is new behind the others, if it fits; answers its mark, or 0.
fn add_name(
    index: &mut [u16],
    place: Place,
    hash: u16,
    name: &[u8],
    out: &mut [u8],
    limit: usize,
) -> u16
    requires { HasRoom index.old × (place.offset.0 < 65536) × (place.length ≡ length name.now) × (0 < place.length) × (limit ≤ MOST_BYTES) }
    ensures { Added index.old index.new out.old out.new place.offset.0 place.length hash name.now limit result }
{
    let used = used(index);
    let end = used + name.len();
    if end > limit {
        return 0;
    }
    packed_index::enter(index, place, hash);
    put(out, used, name, end);
    used as u16 + 1
}

// How many bytes the names have.
pub fn used(index: &[u16]) -> usize
    requires { ENTRIES ≤ length index.now }
    ensures { (result ≡ get_or index.now USED 0) × (result < 65536) }
{
    wide(index[USED])
}

fn wide(x: u16) -> usize
    ensures { (result ≡ x) × (result < 65536) }
{
    x as usize
}

// Writes a name from a place to an end, if the output goes so far.
fn put(out: &mut [u8], at: usize, name: &[u8], end: usize)
    requires { end ≡ at + length name.now }
    ensures { end ≤ length out.old → out.new ≡ written out.old at name.now }
{
    if end > out.len() {
        return;
    }
    write(out, at, name);
}

// Writes a name from a place on, by fours: quick for the short ones that most are. The last four may overlap those before them.
fn write(out: &mut [u8], at: usize, name: &[u8])
    requires { at + length name.now ≤ length out.old }
    ensures { out.new ≡ written out.old at name.now }
{
    if name.len() < 4 {
        buffers::write_bytes(out, at, name);
        return;
    }
    for four in 0..(name.len() - 1) / 4 {
        write_four(out, at, name, 4 * four);
    }
    write_four(out, at, name, name.len() - 4);
}

// Writes four bytes of a name, of which so many are written before.
fn write_four(out: &mut [u8], at: usize, name: &[u8], i: usize)
    requires { (i + 4 ≤ length name.now) × (at + length name.now ≤ length out.old) }
    ensures { (whole : List ℕ) → length whole ≡ length out.old → Begun whole at name.now i out.old → Begun whole at name.now (i + 4) out.new }
{
    let first = name[i];
    let second = name[i + 1];
    let third = name[i + 2];
    let fourth = name[i + 3];
    out[at + i] = first;
    out[at + i + 1] = second;
    out[at + i + 2] = third;
    out[at + i + 3] = fourth;
}

// The names are hard for the plain hash.
pub fn is_hard(index: &[u16]) -> bool
    requires { ENTRIES ≤ length index.now }
    ensures { result ≡ is_hard index.now }
{
    index[HARD] > MUCH
}

// Writes how hard the names are with one of this length. Nothing but time depends on it.
fn count(index: &mut [u16], size: u32) -> u16
    requires { (ENTRIES ≤ length index.old) × (size < 65536) }
    ensures { index.new ≡ set index.old HARD result }
{
    let hard = counted(index, size);
    index[HARD] = hard;
    hard
}

// How hard the names are with one of this length.
fn counted(index: &[u16], size: u32) -> u16
    requires { (ENTRIES ≤ length index.now) × (size < 65536) }
{
    let hard = index[HARD];
    if size <= LONG {
        return hard;
    }
    if hard > MUCH {
        return hard;
    }
    hard + (size / LONG) as u16
}

// The mark beside a place, where this very place is remembered; else 0.
fn recall(index: &[u16], place: Place) -> u16
    requires { ENTRIES ≤ length index.now }
    ensures { (hashed : List ℕ → ℕ) (pool : List ℕ) (names : List (List ℕ)) → Index hashed index.now pool names → Marks names result (part pool place.offset.0 place.length) }
{
    let slot = slot_of(place);
    if is_seen(index, slot, place) {
        return packed_index::seen(index, slot, 2);
    }
    0
}

// The slot remembers this place.
fn is_seen(index: &[u16], slot: usize, place: Place) -> bool
    requires { (slot < SLOTS) × (ENTRIES ≤ length index.now) }
    ensures { result ≡ (eqb (seen index.now slot 0) place.offset.0 && eqb (seen index.now slot 1) place.length) }
{
    (packed_index::seen(index, slot, 0) as u32 == place.offset.0)
        & (packed_index::seen(index, slot, 1) as u32 == place.length)
}

// The mark beside a place, where it is among those of the long values seen last; else 0.
fn recall_recent(index: &[u16], place: Place) -> u16
    requires { ENTRIES ≤ length index.now }
    ensures { (hashed : List ℕ → ℕ) (pool : List ℕ) (names : List (List ℕ)) → Index hashed index.now pool names → Marks names result (part pool place.offset.0 place.length) }
{
    for slot in 0..RECENT {
        if is_seen(index, slot, place) {
            return packed_index::seen(index, slot, 2);
        }
    }
    0
}

// Remembers the mark of a place.
fn remember(index: &mut [u16], place: Place, mark: u16)
    requires { (ENTRIES ≤ length index.old) × (place.offset.0 < 65536) × (place.length < 65536) }
    ensures { (slot : ℕ) × (slot < SLOTS) × (index.new ≡ remembered index.old slot place.offset.0 place.length mark) }
{
    remember_in(index, slot_of(place), place, mark);
}

// Remembers it in a slot.
fn remember_in(index: &mut [u16], slot: usize, place: Place, mark: u16)
    requires { (ENTRIES ≤ length index.old) × (slot < SLOTS) × (place.offset.0 < 65536) × (place.length < 65536) }
    ensures { index.new ≡ remembered index.old slot place.offset.0 place.length mark }
{
    index[PLACES + 3 * slot + 0] = place.offset.0 as u16;
    index[PLACES + 3 * slot + 1] = place.length as u16;
    index[PLACES + 3 * slot + 2] = mark;
}

// Remembers the mark of a long value's place, and how the pool repeats itself, if the place tells. Nothing but time depends on it.
fn note(index: &mut [u16], pool: &[u8], place: Place, mark: u16)
    requires { (ENTRIES ≤ length index.old) × Within pool.now place.offset.0 place.length }
    ensures { Noted pool.now index.old index.new place.offset.0 place.length mark }
{
    repeats::learn(index, pool, place, mark);
    remember(index, place, mark);
    let slot = wide(index[NEXT]) % RECENT;
    remember_in(index, slot, place, mark);
    index[NEXT] = slot as u16 + 1;
}

// The slot of a place, by its offset alone. The round that an offset is in counts too, so that names of four or eight bytes behind
// each other use all slots.
fn slot_of(place: Place) -> usize
    ensures { result < SLOTS }
{
    let offset = place.offset.0 as usize;
    (offset + offset / SLOTS) % SLOTS
}
