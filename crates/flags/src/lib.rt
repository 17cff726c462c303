// Rows that are flagged, a word for each row, and which of them have a name that means a URI.
#![tactic(auto)]

ghost use Rattle.std.specs.Prelude.{◌≡◌, ◌≤◌, ◌<◌, length, get_or, eqb};
ghost use Rattle.rules.specs.Table.{row_count};
ghost use Rattle.flags.specs.Named.{is_named};

use rules::Row;

// The row is flagged.
pub fn is_flagged(flags: &[u16], row: Row) -> bool
    requires { row.0 < length flags.now }
    ensures { result ≡ eqb (get_or flags.now row.0 0) 1 }
{
    flags[row.0 as usize] == 1
}

// The row is flagged, and is an element or an owned attribute.
pub fn is_named(table: &[u32], flags: &[u16], row: Row) -> bool
    requires { (row.0 < row_count table.now) × (row_count table.now ≤ length flags.now) }
    ensures { result ≡ is_named table.now flags.now row.0 }
{
    let kind = rows::kind(table, row);
    let owner = rows::parent(table, row);
    let named = (kind == rules::ELEMENT) | ((kind == rules::ATTRIBUTE) & (owner.0 != rules::NONE));
    is_flagged(flags, row) & named
}
