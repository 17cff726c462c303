// The list of the rows that are dropped: two words for each, rows ascending, its number in the table that is salvaged and the
// number of the refusal that it is dropped for.
#![tactic(auto)]

ghost use Rattle.std.specs.Prelude.{◌≡◌, false, cond, ◌+◌, ◌-◌, ◌*◌, ◌≤◌, ◌<◌, eqb, length, get_or, set};
ghost use Rattle.rules.specs.Table.{MOST_ROWS};
ghost use Rattle.rules.specs.Outputs.{padded};
ghost use Rattle.salvage.specs.Salvage.{ENTRY};
ghost use Rattle.dropped_list.specs.Dropped.{dropped_words};

use rules::Row;

// The words of an entry.
pub const ENTRY: usize = 2;

// Writes the dropped ones of so many rows to the start of the list; the rest of it is zero.
pub fn write(fates: &[u32], rows: usize, list: &mut [u32])
    requires rows_in_bounds { (rows ≤ length fates.now) × (rows ≤ MOST_ROWS) }
    requires rows_in_bounds_2 { length (dropped_words fates.now rows) ≤ length list.old }
    ensures { list.new ≡ padded (length list.old) (dropped_words fates.now rows) }
{
    buffers::clear_words(list, 0);
    let mut kept: u32 = 0;
    for r in 0..rows as u32 {
        kept = write_entry(fates, list, Row(r), Row(kept)).0;
    }
}

// Writes a row, before which so many are kept, if it is dropped, behind those dropped before it; answers how many are kept then.
fn write_entry(fates: &[u32], list: &mut [u32], row: Row, kept: Row) -> Row
    requires row_in_bounds { (row.0 < length fates.now) × (kept.0 ≤ row.0) × (row.0 < MOST_ROWS) }
    requires kept_in_bounds { eqb (get_or fates.now row.0 0) 0 ≡ false → ENTRY * (row.0 - kept.0) + ENTRY ≤ length list.old }
    ensures result_value { result.0 ≡ cond (eqb (get_or fates.now row.0 0) 0) (kept.0 + 1) kept.0 }
    ensures list_after { list.new ≡ cond (eqb (get_or fates.now row.0 0) 0) list.old (set (set list.old (ENTRY * (row.0 - kept.0)) row.0) (ENTRY * (row.0 - kept.0) + 1) (get_or fates.now row.0 0)) }
{
    if !fates::is_dropped(fates, row) {
        return Row(kept.0 + 1);
    }
    let at = ENTRY * (row.0 - kept.0) as usize;
    list[at] = row.0;
    list[at + 1] = fates::refusal(fates, row);
    kept
}
