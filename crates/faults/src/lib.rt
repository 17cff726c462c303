// The faults of one row: refusals 2, 3, 12, 13, 14, 4 and 5, in this order. A row with a fault is no row
// to go on with, whatever else stands in the table; what makes a row a conflict with others, 6 and 7, is
// told apart.
#![tactic(auto)]

ghost use Rattle.std.specs.Prelude.{◌≡◌, ℕ, ◌*◌, ◌≤◌, ◌<◌, length, Ok};
ghost use Rattle.rules.specs.Table.{MOST_ROWS, MOST_BYTES, row_count, node_at};
ghost use Rattle.rules.specs.Refusals.{verdict};
ghost use Rattle.notes.specs.Notes.{NOTES, LATEST, note_at};
ghost use Rattle.dictionary.specs.Dictionary.{Dictionary};
ghost use Rattle.value_bytes.specs.Judging.{Judging};
ghost use Rattle.tree.specs.Parents.{Right};
ghost use Rattle.numbering.specs.Numbering.{HasRoom, RowNumbered};
ghost use Rattle.faults.specs.Faults.{place_refusal, fault_refusal};

use fields::field;
use rules::{Refusal, Row};
use tree::structure;

// The first fault of the row. Where its place and its fields are none, its names get their numbers.
// Lent is the table of the allowed parents.
pub fn check(
    table: &[u32],
    pool: &[u8],
    ascii: bool,
    marks: &[u16],
    allowed: &[u16],
    dictionary: &mut [u16],
    notes: &mut [u16],
    row: Row,
) -> Result<(), Refusal>
    requires row_bound { (row.0 < row_count table.now) × (NOTES * row_count table.now ≤ length notes.old) }
    requires pool_len_bound { length pool.now ≤ MOST_BYTES }
    requires judging { Judging pool.now marks.now ascii }
    requires right { Right allowed.now }
    requires table_bound { row_count table.now ≤ MOST_ROWS }
    requires dictionary { Dictionary dictionary.old pool.now }
    requires has_room { HasRoom dictionary.old 3 }
    ensures value { result ≡ verdict (fault_refusal table.now pool.now row.0) }
    ensures row_numbered { result ≡ Ok tt → RowNumbered dictionary.old notes.old dictionary.new notes.new pool.now row.0 (node_at table.now pool.now row.0) }
    ensures by_index { (q k : ℕ) → LATEST ≤ k → k < NOTES → note_at notes.new q k ≡ note_at notes.old q k }
{
    check_place(table, pool, allowed, row)?;
    let kinds = numbering::number(table, pool, dictionary, notes, row);
    let formed = value_bytes::is_well_formed(table, pool, ascii, marks, row);
    name_refusals::check(table, pool, formed, kinds, row)
}

// The fault that a row has before its names are read: 2, then 3, 12 and 13.
fn check_place(table: &[u32], pool: &[u8], allowed: &[u16], row: Row) -> Result<(), Refusal>
    requires row_bound { (row.0 < row_count table.now) × (row_count table.now ≤ MOST_ROWS) }
    requires right { Right allowed.now }
    ensures { result ≡ verdict (place_refusal table.now pool.now row.0) }
{
    if structure::bad(table, allowed, row) {
        return Err(Refusal::Structure(row));
    }
    field::check(table, pool, row)
}
