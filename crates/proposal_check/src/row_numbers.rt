// The check of a table whose notes are kept: the numbers of the names of its rows stand in them, and the dictionary of the
// names is gone when the check is.
ghost use Rattle.std.specs.Prelude.{◌≡◌, ◌*◌, ◌≤◌, length, Ok};
ghost use Rattle.rules.specs.Table.{MOST_ROWS, row_count};
ghost use Rattle.rules.specs.Refusals.{checked};
ghost use Rattle.notes.specs.Notes.{NOTES};
ghost use Rattle.table_size.specs.Small.{FEW_ROWS};
ghost use Rattle.name_pairs.specs.Noted.{Noted};

use rules::Refusal;

// The first refusal that the table draws, or that it is accepted: then the notes have the numbers of all names.
pub fn check(table: &[u32], pool: &[u8], notes: &mut [u16]) -> Result<(), Refusal>
    requires { row_count table.now ≤ MOST_ROWS → NOTES * row_count table.now ≤ length notes.old }
    ensures value { result ≡ checked table.now pool.now }
    ensures noted { result ≡ Ok tt → Noted table.now pool.now notes.new }
{
    if rows::row_count(table) <= table_size::FEW_ROWS {
        return check_few(table, pool, notes);
    }
    let mut dictionary = [0; checker::DICTIONARY];
    checker::check_numbered(table, pool, &mut dictionary, notes)
}

// The same for a small table. Its size is judged before it gets a dictionary.
pub fn check_few(table: &[u32], pool: &[u8], notes: &mut [u16]) -> Result<(), Refusal>
    requires table_bound { row_count table.now ≤ FEW_ROWS }
    requires table_in_bounds { row_count table.now ≤ MOST_ROWS → NOTES * row_count table.now ≤ length notes.old }
    ensures value { result ≡ checked table.now pool.now }
    ensures noted { result ≡ Ok tt → Noted table.now pool.now notes.new }
{
    if table_size::is_bad(table, pool) {
        return Err(Refusal::Size);
    }
    let mut dictionary = [0; checker::SMALL_DICTIONARY];
    checker::check_numbered(table, pool, &mut dictionary, notes)
}
