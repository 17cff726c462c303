// Steps 1 to 3 of normalization for one element and its attributes, in the working buffers.
#![tactic(auto)]

ghost use Rattle.std.specs.Prelude.{ℕ, ◌+◌};
ghost use Rattle.rules.specs.Normalization.{normalize_row};
ghost use Rattle.element_steps.specs.Buffers.{AtRow, Done};

use repair::Sizes;
use rules::{Position, Row};

// Steps 1 to 3 for the element at which the path stands. Answers how many rows and bytes there are then,
// or more rows than the limit where those are too many.
pub fn normalize_element(
    table: &mut [u32],
    pool: &mut [u8],
    notes: &mut [u16],
    tops: &mut [u16],
    path: &mut [u16],
    element: Row,
    sizes: Sizes,
) -> Sizes
    requires { (total : ℕ) × AtRow total table.old pool.old notes.old tops.old path.old sizes.rows sizes.bytes sizes.names sizes.limit element.0 }
    ensures { (total : ℕ) (h : AtRow total table.old pool.old notes.old tops.old path.old sizes.rows sizes.bytes sizes.names sizes.limit element.0) → Done notes.old table.new pool.new notes.new tops.new path.new result.rows result.bytes result.names sizes.limit (element.0 + 1) (normalize_row total element.0 h.state) }
{
    let limit = sizes.limit;
    let e = element.0;
    let mut bytes = sizes.bytes;
    let mut names = sizes.names;
    let mut free: u16 = 1;
    let mut rows = repair::repair_element(table, notes, tops, path, element, sizes.rows, limit);
    let mut position = notes::link(notes, Row(e), notes::FIRST).0;
    while (position > 0) & (rows <= limit) {
        let row = notes::row_at(Position(position));
        let made = repair::repair_attribute(
            table,
            pool,
            notes,
            tops,
            path,
            row,
            Sizes {
                rows,
                bytes,
                names,
                free,
                limit,
            },
        );
        rows = made.rows;
        bytes = made.bytes;
        names = made.names;
        free = made.free;
        position = notes::link(notes, row, notes::NEXT).0;
    }
    Sizes {
        rows,
        bytes,
        names,
        free,
        limit,
    }
}
