// The rows of a table that are kept, written to another in their order: each as it was, but for its parent, which gets the
// number that the same row has there.
#![tactic(auto)]

ghost use Rattle.std.specs.Prelude.{◌≡◌, ◌⊎◌, cond, ◌+◌, ◌*◌, ◌≤◌, ◌<◌, eqb, length, get_or};
ghost use Rattle.rules.specs.Table.{WIDTH, NONE, PARENT, word, row_count};
ghost use Rattle.buffers.specs.Writes.{written};
ghost use Rattle.kept_table.specs.Kept.{kept_words, Sorted, renumbered, row_words};

use rules::Row;

// Writes the kept rows to the start of the output.
pub fn write(table: &[u32], fates: &[u32], out: &mut [u32])
    requires sorted { Sorted table.now fates.now }
    requires table_in_bounds { length (kept_words table.now fates.now (row_count table.now)) ≤ length out.old }
    ensures { out.new ≡ written out.old 0 (kept_words table.now fates.now (row_count table.now)) }
{
    let mut numbers = [0; rules::MOST_ROWS];
    let mut kept: u32 = 0;
    for r in 0..rows::row_count(table) as u32 {
        numbers[r as usize] = kept;
        kept = write_row(table, fates, &numbers, out, Row(r), Row(kept)).0;
    }
}

// Writes a row, if it is kept, behind so many; answers how many there are then.
fn write_row(
    table: &[u32],
    fates: &[u32],
    numbers: &[u32],
    out: &mut [u32],
    row: Row,
    kept: Row,
) -> Row
    requires row_bound { (row.0 < row_count table.now) × (row.0 < length fates.now) × (kept.0 ≤ row.0) × (row.0 < 4294967295) }
    requires fact { (word table.now row.0 PARENT ≡ NONE) ⊎ (word table.now row.0 PARENT < length numbers.now) }
    requires kept_in_bounds { get_or fates.now row.0 0 ≡ 0 → WIDTH * kept.0 + WIDTH ≤ length out.old }
    ensures result_value { result.0 ≡ cond (eqb (get_or fates.now row.0 0) 0) (kept.0 + 1) kept.0 }
    ensures out_after { out.new ≡ cond (eqb (get_or fates.now row.0 0) 0) (written out.old (WIDTH * kept.0) (row_words table.now row.0 (renumbered numbers.now (word table.now row.0 PARENT)))) out.old }
{
    if fates::is_dropped(fates, row) {
        return kept;
    }
    let parent = new_parent(numbers, rows::parent(table, row));
    let prefix = rows::place(table, row, rules::PREFIX);
    let local = rows::place(table, row, rules::LOCAL_NAME);
    let uri = rows::place(table, row, rules::URI);
    let value = rows::place(table, row, rules::VALUE);
    let words = [
        rows::kind(table, row),
        parent.0,
        prefix.offset.0,
        prefix.length,
        local.offset.0,
        local.length,
        uri.offset.0,
        uri.length,
        value.offset.0,
        value.length,
        rows::maker(table, row),
    ];
    buffers::write_rows(out, kept, &words);
    Row(kept.0 + 1)
}

// The number that a parent has in the output; NONE stays.
fn new_parent(numbers: &[u32], parent: Row) -> Row
    requires { (parent.0 ≡ NONE) ⊎ (parent.0 < length numbers.now) }
    ensures { result.0 ≡ renumbered numbers.now parent.0 }
{
    if parent.0 == rules::NONE {
        return parent;
    }
    rows::row_at(numbers, parent.0 as usize)
}
