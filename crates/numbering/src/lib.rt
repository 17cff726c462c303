// The names of one row get their numbers, which are noted of the row, and what each name is is told with
// them, so that no byte of it is read again.
#![tactic(auto)]

ghost use Rattle.std.specs.Prelude.{◌≡◌, ◌+◌, ◌*◌, ◌≤◌, ◌<◌, length};
ghost use Rattle.std.proofs.Math.Option.{none};
ghost use Rattle.rules.specs.Table.{MOST_BYTES, TYPE, DECLARATION, row_count, word, field_at, node_at};
ghost use Rattle.rules.specs.Refusals.{fields_refusal};
ghost use Rattle.rows.specs.Reading.{HasField};
ghost use Rattle.notes.specs.Notes.{NOTES};
ghost use Rattle.kinds.specs.Kinds.{kind_of};
ghost use Rattle.dictionary.specs.Dictionary.{Dictionary};
ghost use Rattle.row_names.specs.RowNames.{kinds_of};
ghost use Rattle.numbering.specs.Numbering.{HasRoom, Inside, FieldNumbered, RowNumbered};

use row_names::Kinds;
use rules::{NameId, Row};

// Notes the numbers of the row's names, and tells what they are. Of a row that has no names the fields
// are empty.
pub fn number(
    table: &[u32],
    pool: &[u8],
    dictionary: &mut [u16],
    notes: &mut [u16],
    row: Row,
) -> Kinds
    requires row_bound { (row.0 < row_count table.now) × (NOTES * row_count table.now ≤ length notes.old) }
    requires pool_len_bound { (length pool.now ≤ MOST_BYTES) × (fields_refusal (length pool.now) row.0 (node_at table.now pool.now row.0) ≡ none) }
    requires dictionary { Dictionary dictionary.old pool.now }
    requires has_room { HasRoom dictionary.old 3 }
    ensures row_numbered { RowNumbered dictionary.old notes.old dictionary.new notes.new pool.now row.0 (node_at table.now pool.now row.0) }
    ensures value { result ≡ kinds_of (node_at table.now pool.now row.0) }
{
    let row_type = rows::kind(table, row);
    if row_type == rules::DECLARATION {
        return number_declaration(table, pool, dictionary, notes, row);
    }
    if (row_type == rules::ELEMENT) | (row_type == rules::ATTRIBUTE) | rows::is_level1(row_type) {
        return number_names(table, pool, dictionary, notes, row);
    }
    notes::set_name(notes, row, notes::PREFIX, NameId(0));
    notes::set_name(notes, row, notes::LOCAL_NAME, NameId(0));
    notes::set_name(notes, row, notes::URI, NameId(0));
    notes::set_name(notes, row, notes::VALUE, NameId(0));
    Kinds {
        prefix: kinds::EMPTY,
        local: kinds::EMPTY,
        uri: kinds::EMPTY,
        value: kinds::EMPTY,
    }
}

// The names of an element or attribute: the value has none.
fn number_names(
    table: &[u32],
    pool: &[u8],
    dictionary: &mut [u16],
    notes: &mut [u16],
    row: Row,
) -> Kinds
    requires row_bound { (row.0 < row_count table.now) × (NOTES * row_count table.now ≤ length notes.old) }
    requires pool_len_bound { (length pool.now ≤ MOST_BYTES) × (fields_refusal (length pool.now) row.0 (node_at table.now pool.now row.0) ≡ none) }
    requires dictionary { Dictionary dictionary.old pool.now }
    requires has_room { HasRoom dictionary.old 3 }
    requires fact { word table.now row.0 TYPE ≡ DECLARATION → ⊥ }
    ensures row_numbered { RowNumbered dictionary.old notes.old dictionary.new notes.new pool.now row.0 (node_at table.now pool.now row.0) }
    ensures value { result ≡ kinds_of (node_at table.now pool.now row.0) }
{
    let prefix = number_field(
        table,
        pool,
        dictionary,
        notes,
        row,
        rules::PREFIX,
        notes::PREFIX,
    );
    let local = number_field(
        table,
        pool,
        dictionary,
        notes,
        row,
        rules::LOCAL_NAME,
        notes::LOCAL_NAME,
    );
    let uri = number_field(table, pool, dictionary, notes, row, rules::URI, notes::URI);
    notes::set_name(notes, row, notes::VALUE, NameId(0));
    Kinds {
        prefix,
        local,
        uri,
        value: kinds::EMPTY,
    }
}

// The names of a declaration: its local name and its value.
fn number_declaration(
    table: &[u32],
    pool: &[u8],
    dictionary: &mut [u16],
    notes: &mut [u16],
    row: Row,
) -> Kinds
    requires row_bound { (row.0 < row_count table.now) × (NOTES * row_count table.now ≤ length notes.old) }
    requires pool_len_bound { (length pool.now ≤ MOST_BYTES) × (fields_refusal (length pool.now) row.0 (node_at table.now pool.now row.0) ≡ none) }
    requires dictionary { Dictionary dictionary.old pool.now }
    requires has_room { HasRoom dictionary.old 3 }
    requires row_value { word table.now row.0 TYPE ≡ DECLARATION }
    ensures row_numbered { RowNumbered dictionary.old notes.old dictionary.new notes.new pool.now row.0 (node_at table.now pool.now row.0) }
    ensures value { result ≡ kinds_of (node_at table.now pool.now row.0) }
{
    notes::set_name(notes, row, notes::PREFIX, NameId(0));
    let local = number_new(
        table,
        pool,
        dictionary,
        notes,
        row,
        rules::LOCAL_NAME,
        notes::LOCAL_NAME,
    );
    notes::set_name(notes, row, notes::URI, NameId(0));
    let value = number_new(
        table,
        pool,
        dictionary,
        notes,
        row,
        rules::VALUE,
        notes::VALUE,
    );
    Kinds {
        prefix: kinds::EMPTY,
        local,
        uri: kinds::EMPTY,
        value,
    }
}

// Notes the number of a field as word k of the row's notes, and tells what the name is. Most fields
// are empty, or stand at a place that is remembered.
fn number_field(
    table: &[u32],
    pool: &[u8],
    dictionary: &mut [u16],
    notes: &mut [u16],
    row: Row,
    field: u32,
    k: usize,
) -> u16
    requires has_field { HasField table.now row.0 field }
    requires inside { Inside table.now pool.now row.0 field }
    requires dictionary { Dictionary dictionary.old pool.now }
    requires has_room { HasRoom dictionary.old 1 }
    requires k_bound { (k < NOTES) × (NOTES * row.0 + k < length notes.old) }
    ensures field_numbered { FieldNumbered dictionary.old notes.old dictionary.new notes.new pool.now row.0 k (field_at table.now pool.now row.0 field).bytes 1 }
    ensures value { result ≡ kind_of (field_at table.now pool.now row.0 field).bytes }
{
    let place = rows::place(table, row, field);
    if place.length == 0 {
        notes::set_name(notes, row, k, NameId(0));
        return kinds::EMPTY;
    }
    let number = dictionary::recall(dictionary, place);
    if number.0 > 0 {
        notes::set_name(notes, row, k, number);
        return dictionary::name_kind(dictionary, number);
    }
    number_new(table, pool, dictionary, notes, row, field, k)
}

// As number_field, for a name that may be new.
fn number_new(
    table: &[u32],
    pool: &[u8],
    dictionary: &mut [u16],
    notes: &mut [u16],
    row: Row,
    field: u32,
    k: usize,
) -> u16
    requires has_field { HasField table.now row.0 field }
    requires inside { Inside table.now pool.now row.0 field }
    requires dictionary { Dictionary dictionary.old pool.now }
    requires has_room { HasRoom dictionary.old 1 }
    requires k_bound { (k < NOTES) × (NOTES * row.0 + k < length notes.old) }
    ensures field_numbered { FieldNumbered dictionary.old notes.old dictionary.new notes.new pool.now row.0 k (field_at table.now pool.now row.0 field).bytes 1 }
    ensures value { result ≡ kind_of (field_at table.now pool.now row.0 field).bytes }
{
    let number = dictionary::number_of(dictionary, pool, rows::place(table, row, field));
    notes::set_name(notes, row, k, number);
    dictionary::name_kind(dictionary, number)
}
