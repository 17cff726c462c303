// How every lookup begins: the check, which gives the names of the rows their numbers; whether the table
// has the row; the number of the name that is asked for. And the way that it goes: the links of the
// declarations, and the elements from the row's start element outward.
#![tactic(auto)]

ghost use Rattle.std.specs.Prelude.{◌≡◌, List, ℕ, ◌≤◌, ◌<◌, length, take, replicate};
ghost use Rattle.rules.specs.Table.{nodes, row_count};
ghost use Rattle.rules.specs.Lookups.{lookup_elements};
ghost use Rattle.scopes.specs.Standing.{Relinked};
ghost use Rattle.checker.specs.Lent.{Lent};
ghost use Rattle.declarations.specs.Along.{Along};
ghost use Rattle.beginning.specs.Ground.{Blank, Unlinked, Begins};

use rules::{NameId, Refusal, Row};

// The number of the name that is asked for. Checks the table, whose rows get the numbers of their names, and looks for the row
// and for the name.
pub fn begin(
    table: &[u32],
    pool: &[u8],
    row: Row,
    name: &[u8],
    notes: &mut [u16],
) -> Result<NameId, Refusal>
    requires { Blank table.now notes.old }
    ensures { Begins table.now pool.now row.0 notes.new name.now result }
{
    if rows::row_count(table) <= table_size::FEW_ROWS {
        return begin_in::<{ checker::SMALL_DICTIONARY }>(table, pool, row, name, notes);
    }
    begin_in::<{ checker::DICTIONARY }>(table, pool, row, name, notes)
}

// The same, in a dictionary of so many words.
#[inline(never)]
fn begin_in<const DICTIONARY_WORDS: usize>(
    table: &[u32],
    pool: &[u8],
    row: Row,
    name: &[u8],
    notes: &mut [u16],
) -> Result<NameId, Refusal>
    requires dictionary_size { DICTIONARY_WORDS < 65536 }
    requires blank { Blank table.now notes.old }
    requires lent { Lent table.now (replicate DICTIONARY_WORDS 0) notes.old }
    ensures { Begins table.now pool.now row.0 notes.new name.now result }
{
    let mut dictionary = [0; DICTIONARY_WORDS];
    checker::check_numbered(table, pool, &mut dictionary, notes)?;
    if !rows::has_row(table, row) {
        return Err(Refusal::NoSuchRow);
    }
    Ok(asked_names::number_of_name(&dictionary, pool, name))
}

// Links the declarations, and writes the elements from the row's start element outward to the path.
// Answers how many they are.
pub fn climb(table: &[u32], row: Row, notes: &mut [u16], path: &mut [u32]) -> usize
    requires unlinked { Unlinked table.now notes.old }
    requires row_bound { (row.0 < row_count table.now) × (row_count table.now ≤ length path.old) }
    ensures upper_bound { result ≤ length path.new }
    ensures along { Along table.now notes.new (take result path.new) }
    ensures by_index { (pool : List ℕ) → take result path.new ≡ lookup_elements (nodes table.now pool) row.0 }
    ensures relinked { Relinked notes.old notes.new }
{
    scopes::link_all(table, notes);
    ancestors::lookup_elements(table, row, path)
}
