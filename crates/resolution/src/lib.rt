// Refusal 44: the names of a proposal that do not mean their URIs in scope. The stacks of what is in scope go through the
// rows in row order. They only move between rows that declare something, and not to a name whose prefix was found to stand for
// its URI there before: that is remembered in slots, one lent array.
#![tactic(auto)]

ghost use Rattle.std.specs.Prelude.{◌≡◌, List, ℕ, ◌+◌, ◌≤◌, ◌<◌, length};
ghost use Rattle.rules.specs.Table.{row_count, nodes};
ghost use Rattle.rules.specs.Refusals.{verdict};
ghost use Rattle.stacks.specs.Stacks.{NUMBERED, under_at};
ghost use Rattle.scopes.specs.Standing.{Standing};
ghost use Rattle.near_rows.specs.Outward.{Near, Noted};
ghost use Rattle.unsettled.specs.Walkable.{Walkable};
ghost use Rattle.proposals.specs.Proposals.{is_unresolved, unresolved_refusal};
ghost use Rattle.resolution.specs.Known.{Known};

use rules::{Position, Refusal, Row};

// What one row gave: where the arrays stand then, and whether its name is not resolved.
#[derive(Clone, Copy)]
struct Resolved {
    position: Position,
    unresolved: bool,
}

// Refusal 44, for the lowest element or owned attribute that does not mean its URI in scope. The arrays stand at no row.
pub fn check(
    table: &[u32],
    notes: &[u16],
    tops: &mut [u16],
    path: &mut [u16],
) -> Result<(), Refusal>
    requires by_index { (pool : List ℕ) × Walkable table.now pool notes.now tops.old path.old }
    requires standing { Standing table.now notes.now tops.old path.old 0 }
    ensures { (pool : List ℕ) → Walkable table.now pool notes.now tops.old path.old → result ≡ verdict (unresolved_refusal (nodes table.now pool)) }
{
    let mut known = [0; name_slots::WORDS];
    check_in(table, notes, tops, path, &mut known)
}

// The same, with slots that are lent.
fn check_in(
    table: &[u32],
    notes: &[u16],
    tops: &mut [u16],
    path: &mut [u16],
    known: &mut [u16],
) -> Result<(), Refusal>
    requires by_index { (pool : List ℕ) × Walkable table.now pool notes.now tops.old path.old }
    requires standing { Standing table.now notes.now tops.old path.old 0 }
    requires known { Known table.now notes.now known.old (length tops.old) (length path.old) (under_at path.old NUMBERED 0) }
    ensures { (pool : List ℕ) → Walkable table.now pool notes.now tops.old path.old → result ≡ verdict (unresolved_refusal (nodes table.now pool)) }
{
    let mut position: u16 = 0;
    let rows = rows::row_count(table) as u32;
    for r in 0..rows {
        let resolved = resolve(table, notes, tops, path, known, Row(r), Position(position));
        if resolved.unresolved {
            return Err(Refusal::Unresolved(Row(r)));
        }
        position = resolved.position.0;
    }
    Ok(())
}

// Whether the row is an element or an owned attribute that does not mean its URI in scope. The arrays stand at a position.
fn resolve(
    table: &[u32],
    notes: &[u16],
    tops: &mut [u16],
    path: &mut [u16],
    known: &mut [u16],
    row: Row,
    from: Position,
) -> Resolved
    requires by_index { (pool : List ℕ) × Walkable table.now pool notes.now tops.old path.old }
    requires standing { (Standing table.now notes.now tops.old path.old from.0) × (from.0 ≤ row_count table.now) }
    requires row_bound { row.0 < row_count table.now }
    requires noted { Noted table.now notes.now path.old row.0 }
    requires known { Known table.now notes.now known.old (length tops.old) (length path.old) (under_at path.old NUMBERED 0) }
    ensures standing_2 { (Standing table.now notes.now tops.new path.new result.position.0) × (result.position.0 ≤ row_count table.now) }
    ensures noted_2 { (Noted table.now notes.now path.new (row.0 + 1)) × (under_at path.new NUMBERED 0 ≡ under_at path.old NUMBERED 0) }
    ensures known_2 { Known table.now notes.now known.new (length tops.old) (length path.old) (under_at path.old NUMBERED 0) }
    ensures by_index_2 { (pool : List ℕ) → Walkable table.now pool notes.now tops.old path.old → result.unresolved ≡ is_unresolved (nodes table.now pool) row.0 }
{
    if near_rows::is_leaf(rows::kind(table, row)) {
        return Resolved {
            position: from,
            unresolved: false,
        };
    }
    let near = note_nearest(table, notes, path, row);
    if !proposal_names::asks(table, notes, row) {
        return Resolved {
            position: from,
            unresolved: false,
        };
    }
    if name_slots::is_known(table, notes, known, row, near) {
        return Resolved {
            position: from,
            unresolved: false,
        };
    }
    moves::go(table, notes, tops, path, from, near);
    if proposal_names::is_unsettled(table, notes, tops, path, row) {
        return Resolved {
            position: near,
            unresolved: true,
        };
    }
    name_slots::remember(notes, known, row, near);
    Resolved {
        position: near,
        unresolved: false,
    }
}

// The nearest row outward from a row, itself included, that declares something, which is noted. The row is no leaf.
fn note_nearest(table: &[u32], notes: &[u16], path: &mut [u16], row: Row) -> Position
    requires by_index { (pool tops : List ℕ) × Walkable table.now pool notes.now tops path.old }
    requires row_bound { row.0 < row_count table.now }
    requires noted { Noted table.now notes.now path.old row.0 }
    ensures near { Near table.now notes.now result.0 (row.0 + 1) }
    ensures by_index_2 { (pool tops : List ℕ) → Walkable table.now pool notes.now tops path.old → Walkable table.now pool notes.now tops path.new }
    ensures by_index_3 { (tops : List ℕ) (q : ℕ) → Standing table.now notes.now tops path.old q → Standing table.now notes.now tops path.new q }
    ensures noted_2 { (Noted table.now notes.now path.new (row.0 + 1)) × (under_at path.new NUMBERED 0 ≡ under_at path.old NUMBERED 0) }
{
    let near = near_rows::nearest(table, notes, path, row);
    stacks::set_beside(path, notes::position_of(row), near);
    near
}
