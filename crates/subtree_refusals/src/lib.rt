// What the subtree of an element is refused for: 20, 21, 23 and 24. Where nothing of the whole table is refused, which is the
// usual case, one pass over the rows tells.
#![tactic(auto)]

ghost use Rattle.std.specs.Prelude.{◌≡◌, true, ℕ, ◌<◌};
ghost use Rattle.std.proofs.Math.Option.{some};
ghost use Rattle.rules.specs.Table.{NONE, nodes, node, row_count, is_element};
ghost use Rattle.rules.specs.Refusals.{verdict};
ghost use Rattle.markup.specs.Writing.{subtree_refusal};
ghost use Rattle.unsettled.specs.Walkable.{Prepared};
ghost use Rattle.meanings.specs.Writable.{WritableTo};
ghost use Rattle.subtree_refusals.specs.Unrefused.{Unrefused};

use rules::{Refusal, Row};

// A row before which every row of the whole table may be written. NONE, where the element at hand lies in no other one, the
// pool holds no forbidden character, and every row may be written: then nothing is refused. From any other row on, rows may be
// refused or not.
pub fn first_unclear(
    table: &[u32],
    pool: &[u8],
    element: Row,
    notes: &[u16],
    tops: &mut [u16],
    path: &mut [u16],
) -> Row
    requires { Prepared table.now pool.now notes.now tops.old path.old }
    ensures unrefused { result.0 ≡ NONE → Unrefused table.now pool.now element.0 }
    ensures writable_to { WritableTo table.now pool.now result.0 }
    ensures prepared { Prepared table.now pool.now notes.now tops.new path.new }
{
    if rows::has_row(table, element) {
        if inheritance::is_top(table, element) {
            if !characters::holds_forbidden(pool) {
                return meanings::first_unwritable(table, notes, tops, path);
            }
        }
    }
    Row(0)
}

// Refusals 20, 21, 23 and 24 of the subtree of an element. The rows before the first one are known to be writable.
pub fn check_subtree(
    table: &[u32],
    pool: &[u8],
    element: Row,
    first: Row,
    notes: &[u16],
    tops: &mut [u16],
    path: &mut [u16],
) -> Result<(), Refusal>
    requires prepared { Prepared table.now pool.now notes.now tops.old path.old }
    requires element_bound { element.0 < row_count table.now }
    requires writable_to { WritableTo table.now pool.now first.0 }
    ensures { is_element (node (nodes table.now pool.now) element.0).type ≡ true → (start : ℕ) → result ≡ verdict (subtree_refusal (nodes table.now pool.now) start (some element.0)) }
{
    let mut flags = [0; rules::MOST_ROWS];
    subtree::flag_all(table, &mut flags, element);
    markup_refusals::check_markup(table, &flags)?;
    markup_refusals::check_characters(table, pool, &flags)?;
    meanings::check_names(table, notes, tops, path, &flags, element, first)
}
