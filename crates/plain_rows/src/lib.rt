// Rows as most are, told at one look: an element, an attribute or a text under an element, whose names are
// empty or stand at places that are remembered. All its tests are joined; of any other row, one with a
// fault among them, nothing is told, and whoever asks goes through the tests one after the other.
#![tactic(auto)]

ghost use Rattle.std.specs.Prelude.{◌≡◌, true, false, ◌&&◌, not, ◌+◌, ◌≤◌, ◌<◌, length, eqb, leb};
ghost use Rattle.rules.specs.Lists.{all_of};
ghost use Rattle.rules.specs.Table.{MOST_ROWS, TYPE, ELEMENT, ATTRIBUTE, TEXT, row_count, word, field_at};
ghost use Rattle.rules.specs.Utf8.{is_ascii};
ghost use Rattle.rows.specs.Reading.{HasField};
ghost use Rattle.kinds.specs.Kinds.{GOOD, OTHER, kind_of};
ghost use Rattle.dictionary.specs.Dictionary.{Dictionary};
ghost use Rattle.plain_rows.specs.Plain.{Known, GoodValue, Inside, Named, Plain};

use kinds::{GOOD, OTHER};
use rows::wide;
use rules::{NameId, Place, Row};

// Whether a row is plain. If it is, what is read of it: its owner, its type and the numbers of its names.
#[derive(Clone, Copy)]
pub struct Told {
    pub plain: bool,
    pub owner: Row,
    pub kind: u32,
    pub prefix: NameId,
    pub local: NameId,
    pub uri: NameId,
}

// Whether the name of a field is known. If it is, its number and what it is.
#[derive(Clone, Copy)]
struct Seen {
    known: bool,
    number: NameId,
    kind: u16,
}

// The most bytes of a value that is read, in a pool that is not all of ASCII.
const SHORT: u32 = 32;

// One look at a row.
pub fn look(table: &[u32], pool: &[u8], ascii: bool, dictionary: &[u16], row: Row) -> Told
    requires row_bound { (row.0 < row_count table.now) × (row_count table.now ≤ MOST_ROWS) }
    requires ascii_value { ascii ≡ all_of is_ascii pool.now }
    requires dictionary { Dictionary dictionary.now pool.now }
    ensures { result.plain ≡ true → Plain table.now pool.now dictionary.now row.0 result }
{
    if !is_inside(table, row) {
        return not_plain();
    }
    let kind = rows::kind(table, row);
    if kind == rules::TEXT {
        if !has_good_value(table, pool, ascii, row) {
            return not_plain();
        }
        return look_nameless(table, pool, dictionary, row);
    }
    if (kind != rules::ELEMENT) & (kind != rules::ATTRIBUTE) {
        return not_plain();
    }
    look_valued(table, pool, ascii, dictionary, row)
}

// An element or attribute under an element: its names, then its value.
fn look_valued(table: &[u32], pool: &[u8], ascii: bool, dictionary: &[u16], row: Row) -> Told
    requires row_bound { (row.0 < row_count table.now) × (row_count table.now ≤ MOST_ROWS) }
    requires ascii_value { ascii ≡ all_of is_ascii pool.now }
    requires dictionary { Dictionary dictionary.now pool.now }
    requires inside { Inside table.now row.0 }
    requires row_value { (not (eqb (word table.now row.0 TYPE) ELEMENT) && not (eqb (word table.now row.0 TYPE) ATTRIBUTE)) ≡ false }
    ensures { result.plain ≡ true → Plain table.now pool.now dictionary.now row.0 result }
{
    let names = look_named(table, pool, dictionary, row);
    if !names.plain {
        return not_plain();
    }
    if names.kind == rules::ELEMENT {
        if !is_nothing(rows::place(table, row, rules::VALUE)) {
            return not_plain();
        }
        return names;
    }
    if !has_good_value(table, pool, ascii, row) {
        return not_plain();
    }
    names
}

// The row stands under an element.
fn is_inside(table: &[u32], row: Row) -> bool
    requires { row.0 < row_count table.now }
    ensures { result ≡ true → Inside table.now row.0 }
{
    let parent = rows::parent(table, row);
    if parent.0 >= row.0 {
        return false;
    }
    rows::kind(table, parent) == rules::ELEMENT
}

// A text under an element, with a good value.
fn look_nameless(table: &[u32], pool: &[u8], dictionary: &[u16], row: Row) -> Told
    requires row_bound { (row.0 < row_count table.now) × (row_count table.now ≤ MOST_ROWS) }
    requires dictionary { Dictionary dictionary.now pool.now }
    requires inside { Inside table.now row.0 }
    requires row_value { word table.now row.0 TYPE ≡ TEXT }
    requires good_value { GoodValue table.now pool.now row.0 }
    ensures { result.plain ≡ true → Plain table.now pool.now dictionary.now row.0 result }
{
    let owner = rows::parent(table, row);
    let prefix = is_nothing(rows::place(table, row, rules::PREFIX));
    let local = is_nothing(rows::place(table, row, rules::LOCAL_NAME));
    let uri = is_nothing(rows::place(table, row, rules::URI));
    Told {
        plain: prefix & local & uri,
        owner,
        kind: rules::TEXT,
        prefix: NameId(0),
        local: NameId(0),
        uri: NameId(0),
    }
}

// The names of an element or attribute. A local name that is not remembered ends it.
fn look_named(table: &[u32], pool: &[u8], dictionary: &[u16], row: Row) -> Told
    requires row_bound { row.0 < row_count table.now }
    requires dictionary { Dictionary dictionary.now pool.now }
    requires row_value { (not (eqb (word table.now row.0 TYPE) ELEMENT) && not (eqb (word table.now row.0 TYPE) ATTRIBUTE)) ≡ false }
    ensures { result.plain ≡ true → Named table.now pool.now dictionary.now row.0 result }
{
    let local = see(table, pool, dictionary, row, rules::LOCAL_NAME);
    if local.number.0 == 0 {
        return not_plain();
    }
    let prefix = see(table, pool, dictionary, row, rules::PREFIX);
    let uri = see(table, pool, dictionary, row, rules::URI);
    let good = good_names(prefix.kind, local.kind, uri.kind);
    let owner = rows::parent(table, row);
    let kind = rows::kind(table, row);
    Told {
        plain: local.known & prefix.known & uri.known & good,
        owner,
        kind,
        prefix: NameId(prefix.number.0),
        local: NameId(local.number.0),
        uri: NameId(uri.number.0),
    }
}

// What is known of the name of a field.
fn see(table: &[u32], pool: &[u8], dictionary: &[u16], row: Row, field: u32) -> Seen
    requires has_field { HasField table.now row.0 field }
    requires dictionary { Dictionary dictionary.now pool.now }
    ensures known { result.known ≡ true → Known table.now pool.now dictionary.now row.0 field result.number.0 }
    ensures kind_value { result.known ≡ true → result.kind ≡ kind_of (field_at table.now pool.now row.0 field).bytes }
{
    let place = rows::place(table, row, field);
    let number = dictionary::recall(dictionary, place);
    let kind = dictionary::name_kind(dictionary, number);
    let within = is_within(pool, place);
    let nothing = is_nothing(place);
    Seen {
        known: (number.0 > 0) & within | nothing,
        number,
        kind,
    }
}

// Names of these kinds are good: a local name, and a prefix only with a URI that is not built in.
fn good_names(prefix: u16, local: u16, uri: u16) -> bool
    ensures { result ≡ (leb prefix uri && leb uri OTHER && leb prefix GOOD && eqb local GOOD) }
{
    (prefix <= uri) & (uri <= OTHER) & (prefix <= GOOD) & (local == GOOD)
}

// The value of a row that may have one is good: it lies in the pool, and is well-formed.
fn has_good_value(table: &[u32], pool: &[u8], ascii: bool, row: Row) -> bool
    requires row_bound { row.0 < row_count table.now }
    requires ascii_value { ascii ≡ all_of is_ascii pool.now }
    ensures { result ≡ true → GoodValue table.now pool.now row.0 }
{
    let place = rows::place(table, row, rules::VALUE);
    let within = is_within(pool, place);
    let nothing = is_nothing(place);
    if !((place.length > 0) & within | nothing) {
        return false;
    }
    if ascii {
        return true;
    }
    if place.length > SHORT {
        return false;
    }
    utf8::well_formed(rows::field(table, pool, row, rules::VALUE))
}

// The place lies in the pool.
fn is_within(pool: &[u8], place: Place) -> bool
    ensures { result ≡ leb (place.offset.0 + place.length) (length pool.now) }
{
    wide(place.offset.0) + wide(place.length) <= pool.len()
}

// The place has neither an offset nor a length.
fn is_nothing(place: Place) -> bool
    ensures { result ≡ (eqb place.offset.0 0 && eqb place.length 0) }
{
    (place.offset.0 == 0) & (place.length == 0)
}

// Nothing is told.
fn not_plain() -> Told
    ensures { result.plain ≡ false }
{
    Told {
        plain: false,
        owner: Row(0),
        kind: 0,
        prefix: NameId(0),
        local: NameId(0),
        uri: NameId(0),
    }
}
