// What writing from a row is refused for, whatever the output, behind the check and 8: 9, 20, 21, 23 and 24.
#![tactic(auto)]

ghost use Rattle.std.specs.Prelude.{[], ◌∷◌};
ghost use Rattle.beginning.specs.Ground.{Ground};
ghost use Rattle.scope_preparation.specs.Arrays.{Cleared};
ghost use Rattle.text_refusals.specs.Judging.{WrittenFrom};

use rules::{NameId, Refusal, Row};

// What writing from a row is refused for, whatever the output, where nothing is refused before 9 and xml has a number; or the
// element that is written.
pub fn judge_asked(
    table: &[u32],
    pool: &[u8],
    row: Row,
    xml: NameId,
    notes: &mut [u16],
    tops: &mut [u16],
    path: &mut [u16],
) -> Result<Row, Refusal>
    requires grounded { Ground table.now pool.now row.0 notes.old xml.0 (120 ∷ 109 ∷ 108 ∷ []) }
    requires cleared { Cleared table.now tops.old path.old }
    ensures { WrittenFrom table.now pool.now row.0 result }
{
    scope_preparation::prepare(table, xml, notes, path);
    let element = subtree::element_to_write(table, row);
    row_refusals::check(table, pool, row, element, notes, tops, path)?;
    Ok(element)
}
