// The declaration that a row needs, in the working buffers: an element's own is set, or one is appended, and the path of scopes,
// which stands at the element, has it.
#![tactic(auto)]

ghost use Rattle.std.specs.Prelude.{ℕ, ◌+◌};
ghost use Rattle.rules.specs.Table.{node};
ghost use Rattle.working.specs.Working.{Good, AtOwn, Undeclared, AtTop, SameAttributes, After, valued, declared_for};

use rules::Row;

// Sets an element's own declaration of its prefix to its URI.
pub fn set_own(
    table: &mut [u32],
    notes: &mut [u16],
    tops: &mut [u16],
    path: &mut [u16],
    element: Row,
    declaration: Row,
    rows: usize,
)
    requires { AtOwn table.old notes.old tops.old path.old rows element.0 declaration.0 }
    ensures good { (h : AtOwn table.old notes.old tops.old path.old rows element.0 declaration.0) → Good table.new h.pool notes.new tops.new path.new rows h.bytes h.names h.limit (element.0 + 1) (valued declaration.0 (node h.at.state.rows element.0).uri h.at.state) }
    ensures same_attributes { SameAttributes notes.old notes.new }
{
    let position = notes::position_of(element);
    scopes::leave(&table[..rules::WIDTH * rows], notes, tops, path, position);
    changes::set_value(table, notes, element, declaration, rows);
    scopes::enter(&table[..rules::WIDTH * rows], notes, tops, path, position);
}

// Appends a declaration of an element's prefix as its URI. Answers how many rows there are then, one more
// than the limit where that is too many.
pub fn append_own(
    table: &mut [u32],
    notes: &mut [u16],
    tops: &mut [u16],
    path: &mut [u16],
    element: Row,
    rows: usize,
    limit: usize,
) -> usize
    requires { (names : ℕ) × Undeclared table.old notes.old tops.old path.old rows names limit element.0 }
    ensures { (names : ℕ) (h : Undeclared table.old notes.old tops.old path.old rows names limit element.0) → After notes.old table.new h.pool notes.new tops.new path.new result h.bytes names limit (element.0 + 1) (declared_for element.0 element.0 h.at.state) }
{
    if limit <= rows {
        return limit + 1;
    }
    let position = notes::position_of(element);
    scopes::leave(&table[..rules::WIDTH * rows], notes, tops, path, position);
    changes::write_declaration(table, notes, element, element, rows);
    let words = &table[..rules::WIDTH * (rows + 1)];
    scopes::link(words, notes, Row(rows as u32));
    scopes::enter(words, notes, tops, path, position);
    rows + 1
}

// Appends the declaration of an attribute's prefix as its URI, for its owner, and puts it on top.
pub fn append_on_top(
    table: &mut [u32],
    notes: &mut [u16],
    tops: &mut [u16],
    path: &mut [u16],
    attribute: Row,
    rows: usize,
)
    requires { AtTop table.old notes.old tops.old path.old rows attribute.0 }
    ensures good { (h : AtTop table.old notes.old tops.old path.old rows attribute.0) → Good table.new h.pool notes.new tops.new path.new (rows + 1) h.bytes h.names h.limit (h.owner + 1) (declared_for h.owner attribute.0 h.state) }
    ensures same_attributes { SameAttributes notes.old notes.new }
{
    let owner = rows::parent(&table[..rules::WIDTH * rows], attribute);
    changes::write_declaration(table, notes, owner, attribute, rows);
    scopes::declare(
        &table[..rules::WIDTH * (rows + 1)],
        notes,
        tops,
        path,
        notes::position_of(owner),
    );
}
