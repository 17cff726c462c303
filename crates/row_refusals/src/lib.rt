// What a row of a table that the check accepts is refused for where it is to be written: 9, 20, 21, 23 and 24.
#![tactic(auto)]

ghost use Rattle.std.specs.Prelude.{◌≡◌};
ghost use Rattle.rules.specs.Table.{nodes};
ghost use Rattle.rules.specs.Refusals.{verdict};
ghost use Rattle.rows.specs.Reading.{row_or};
ghost use Rattle.markup.specs.Writing.{element_to_write};
ghost use Rattle.unsettled.specs.Walkable.{Prepared};
ghost use Rattle.row_refusals.specs.Refused.{row_refusal};

use rules::{Refusal, Row};

// What writing from a row is refused for, where the check draws nothing. The element that is written is at hand, or NONE.
pub fn check(
    table: &[u32],
    pool: &[u8],
    row: Row,
    element: Row,
    notes: &[u16],
    tops: &mut [u16],
    path: &mut [u16],
) -> Result<(), Refusal>
    requires prepared { Prepared table.now pool.now notes.now tops.old path.old }
    requires element_value { element.0 ≡ row_or (element_to_write (nodes table.now pool.now) row.0) }
    ensures { result ≡ verdict (row_refusal (nodes table.now pool.now) row.0) }
{
    let first = subtree_refusals::first_unclear(table, pool, element, notes, tops, path);
    if first.0 == rules::NONE {
        return Ok(());
    }
    levels::level1(table)?;
    if rows::has_row(table, element) {
        return subtree_refusals::check_subtree(table, pool, element, first, notes, tops, path);
    }
    Err(Refusal::NotMarkup(row))
}
