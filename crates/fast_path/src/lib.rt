// Rows as most are, accepted by the check at one look each: their names get the numbers that are
// remembered, and they are entered among the rows with which others are compared. The first row that is
// not plain ends the pass; so does one that is a double. Neither is refused here.
#![tactic(auto)]

ghost use Rattle.std.specs.Prelude.{◌≡◌, true, false, ℕ, ◌+◌, ◌*◌, ◌≤◌, ◌<◌, length};
ghost use Rattle.rules.specs.Lists.{all_of};
ghost use Rattle.rules.specs.Table.{row_count};
ghost use Rattle.rules.specs.Utf8.{is_ascii};
ghost use Rattle.notes.specs.Notes.{NOTES, LATEST, note_at};
ghost use Rattle.entries.specs.Entries.{NAMES};
ghost use Rattle.dictionary.specs.Dictionary.{PLACES};
ghost use Rattle.fast_path.specs.Passing.{Reached, Passed, named};

use doubles::Key;
use rules::{NameId, Row};

// The first row from this one on that is not passed.
pub fn pass(
    table: &[u32],
    pool: &[u8],
    ascii: bool,
    dictionary: &[u16],
    notes: &mut [u16],
    chains: &mut [u16],
    from: Row,
) -> Row
    requires ascii_value { ascii ≡ all_of is_ascii pool.now }
    requires reached { Reached table.now pool.now dictionary.now notes.old chains.old from.0 }
    ensures reached_2 { Reached table.now pool.now dictionary.now notes.new chains.new result.0 }
    ensures from_le_result { from.0 ≤ result.0 }
    ensures by_index { (q : ℕ) → from.0 ≤ q → q < result.0 → Passed table.now pool.now q }
    ensures by_index_2 { (q k : ℕ) → LATEST ≤ k → k < NOTES → note_at notes.new q k ≡ note_at notes.old q k }
{
    if follows_new(dictionary, notes, from) {
        return from;
    }
    pass_plain(table, pool, ascii, dictionary, notes, chains, from)
}

// The first row from this one on that is not plain or is a double.
fn pass_plain(
    table: &[u32],
    pool: &[u8],
    ascii: bool,
    dictionary: &[u16],
    notes: &mut [u16],
    chains: &mut [u16],
    from: Row,
) -> Row
    requires ascii_value { ascii ≡ all_of is_ascii pool.now }
    requires reached { Reached table.now pool.now dictionary.now notes.old chains.old from.0 }
    ensures reached_2 { Reached table.now pool.now dictionary.now notes.new chains.new result.0 }
    ensures from_le_result { from.0 ≤ result.0 }
    ensures by_index { (q : ℕ) → from.0 ≤ q → q < result.0 → Passed table.now pool.now q }
    ensures by_index_2 { (q k : ℕ) → LATEST ≤ k → k < NOTES → note_at notes.new q k ≡ note_at notes.old q k }
{
    let rows = rows::row_count(table) as u32;
    for r in from.0..rows {
        if !accept(table, pool, ascii, dictionary, notes, chains, Row(r)) {
            return Row(r);
        }
    }
    Row(rows)
}

// The row before seems to have brought a name: its local name or its URI is the newest, and is not that of
// the row before it. Such rows come one after the other, and where the next brings a name too a look would
// be for nothing; it is left out.
fn follows_new(dictionary: &[u16], notes: &[u16], row: Row) -> bool
    requires in_bounds { PLACES + NAMES ≤ length dictionary.now }
    requires row_in_bounds { NOTES * row.0 ≤ length notes.now }
{
    if row.0 < 2 {
        return false;
    }
    let last = dictionary::last(dictionary);
    is_first(notes, row, notes::LOCAL_NAME, last) | is_first(notes, row, notes::URI, last)
}

// The row before has this name as word k of its notes, and the one before that has not.
fn is_first(notes: &[u16], row: Row, k: usize, name: NameId) -> bool
    requires { (2 ≤ row.0) × (k < NOTES) × (NOTES * row.0 ≤ length notes.now) }
{
    let one = notes::name(notes, Row(row.0 - 1), k);
    let other = notes::name(notes, Row(row.0 - 2), k);
    (one.0 == name.0) & (other.0 != name.0)
}

// Passes a row, if it is plain and no double.
fn accept(
    table: &[u32],
    pool: &[u8],
    ascii: bool,
    dictionary: &[u16],
    notes: &mut [u16],
    chains: &mut [u16],
    row: Row,
) -> bool
    requires row_bound { row.0 < row_count table.now }
    requires ascii_value { ascii ≡ all_of is_ascii pool.now }
    requires reached { Reached table.now pool.now dictionary.now notes.old chains.old row.0 }
    ensures reached_2 { result ≡ true → Reached table.now pool.now dictionary.now notes.new chains.new (row.0 + 1) }
    ensures passed { result ≡ true → Passed table.now pool.now row.0 }
    ensures reached_3 { result ≡ false → Reached table.now pool.now dictionary.now notes.new chains.new row.0 }
    ensures by_index { (q k : ℕ) → LATEST ≤ k → k < NOTES → note_at notes.new q k ≡ note_at notes.old q k }
{
    let told = plain_rows::look(table, pool, ascii, dictionary, row);
    if !told.plain {
        return false;
    }
    let owner = told.owner;
    let kind = told.kind;
    let prefix = told.prefix;
    let local = told.local;
    let uri = told.uri;
    note(notes, row, prefix, local, uri);
    if kind != rules::ATTRIBUTE {
        return true;
    }
    let key = Key {
        owner,
        kind,
        local,
        uri,
    };
    !doubles::add(table, notes, chains, key, row)
}

// Notes the numbers of the names of a row that is no declaration.
fn note(notes: &mut [u16], row: Row, prefix: NameId, local: NameId, uri: NameId)
    requires { NOTES * row.0 + NOTES ≤ length notes.old }
    ensures { notes.new ≡ named notes.old row.0 prefix.0 local.0 uri.0 }
{
    notes::set_name(notes, row, notes::PREFIX, prefix);
    notes::set_name(notes, row, notes::LOCAL_NAME, local);
    notes::set_name(notes, row, notes::URI, uri);
    notes::set_name(notes, row, notes::VALUE, NameId(0));
}
