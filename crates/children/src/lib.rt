// The rows of each element's start tag, and those of its content, as links in row order: an element's record leads to its first one,
// and each one's record to the next of the same element.
#![tactic(auto)]

ghost use Rattle.std.specs.Prelude.{◌≡◌, Bool, ℕ, ◌+◌, ◌*◌, ◌≤◌, ◌<◌, length};
ghost use Rattle.rules.specs.Lists.{is_one_of};
ghost use Rattle.rules.specs.Table.{MOST_ROWS, row_count};
ghost use Rattle.notes.specs.Notes.{NOTES, note_at};
ghost use Rattle.children.specs.Children.{kinds, is_under, first_word, Listed, Relinked};

use rules::{Position, Row};

// Links the owned rows of all elements and the rows of their contents, from records without such links.
pub fn link_all(table: &[u32], links: &mut [u16])
    requires table_bound { (row_count table.now ≤ MOST_ROWS) × (NOTES * row_count table.now ≤ length links.old) }
    requires owned_value { (owned : Bool) (e : ℕ) → note_at links.old e (first_word owned) ≡ 0 }
    ensures { (owned : Bool) → Listed (is_under owned table.now) (first_word owned) links.new (row_count table.now) 0 }
{
    let rows = rows::row_count(table) as u32;
    for r in (0..rows).rev() {
        link(table, links, Row(r), true);
        link(table, links, Row(r), false);
    }
}

// Links a row, if it is one of those that are owned, or that stand in contents, in front of the others of its element, which are the
// later ones.
fn link(table: &[u32], links: &mut [u16], row: Row, owned: bool)
    requires table_bound { (row_count table.now ≤ MOST_ROWS) × (NOTES * row_count table.now ≤ length links.old) × (row.0 < row_count table.now) }
    requires listed { Listed (is_under owned table.now) (first_word owned) links.old (row_count table.now) (row.0 + 1) }
    ensures listed_2 { Listed (is_under owned table.now) (first_word owned) links.new (row_count table.now) row.0 }
    ensures relinked { Relinked (first_word owned) links.old links.new }
{
    if is_kind(rows::kind(table, row), owned) {
        let parent = rows::parent(table, row);
        if rows::has_row(table, parent) {
            let first = first_word(owned);
            let next = notes::link(links, parent, first);
            notes::set_link(links, row, first + 1, next);
            notes::set_link(links, parent, first, notes::position_of(row));
        }
    }
}

// The first of the rows that a row owns, or of those in its content; 0 where there is none.
pub fn first(links: &[u16], row: Row, owned: bool) -> Position
    requires { NOTES * row.0 + NOTES ≤ length links.now }
    ensures { result.0 ≡ note_at links.now row.0 (first_word owned) }
{
    notes::link(links, row, first_word(owned))
}

// The next of them behind one; 0 where there is none.
pub fn next(links: &[u16], row: Row, owned: bool) -> Position
    requires { NOTES * row.0 + NOTES ≤ length links.now }
    ensures { result.0 ≡ note_at links.now row.0 (first_word owned + 1) }
{
    notes::link(links, row, first_word(owned) + 1)
}

// The types of the rows that an element owns, or of those in its content.
fn is_kind(kind: u32, owned: bool) -> bool
    ensures { result ≡ is_one_of (kinds owned) kind }
{
    if owned {
        return (kind == rules::ATTRIBUTE) | (kind == rules::DECLARATION);
    }
    (kind == rules::ELEMENT) | (kind == rules::TEXT)
}

// The word of an element's first one.
fn first_word(owned: bool) -> usize
    ensures { (result ≡ first_word owned) × (result + 1 < NOTES) }
{
    if owned {
        return notes::FIRST;
    }
    notes::LATEST
}
