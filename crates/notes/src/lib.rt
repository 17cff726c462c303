// What is noted of each row beside the table: the numbers of its names, and links between the rows that
// an element owns. One lent array holds it, eight words for each row. In the links rows are counted
// from 1 (a row's position), since 0 is no row.
#![tactic(auto)]

ghost use Rattle.std.specs.Prelude.{◌≡◌, ◌+◌, ◌-◌, ◌*◌, ◌≤◌, ◌<◌, length};
ghost use Rattle.notes.specs.Notes.{NOTES, note_at, noted};

use rules::{NameId, Position, Row};

// The words of a row.
pub const NOTES: usize = 8;

// The numbers of its names; the value's is that of a declaration's URI.
pub const PREFIX: usize = 0;

pub const LOCAL_NAME: usize = 1;

pub const URI: usize = 2;

pub const VALUE: usize = 3;

// Of an element, the last of its declarations; of a declaration, the one before it of the same owner.
pub const LATEST: usize = 4;

pub const PREVIOUS: usize = 5;

// Of an element, the first of its attributes; of an attribute, the next one of the same owner.
pub const FIRST: usize = 6;

pub const NEXT: usize = 7;

// A word of a row's notes.
fn note(notes: &[u16], row: Row, k: usize) -> u16
    requires { NOTES * row.0 + k < length notes.now }
    ensures { result ≡ note_at notes.now row.0 k }
{
    notes[NOTES * row.0 as usize + k]
}

// Notes a word of a row.
fn set_note(notes: &mut [u16], row: Row, k: usize, value: u16)
    requires { NOTES * row.0 + k < length notes.old }
    ensures { notes.new ≡ noted notes.old row.0 k value }
{
    notes[NOTES * row.0 as usize + k] = value;
}

// The number of a name of a row.
pub fn name(notes: &[u16], row: Row, k: usize) -> NameId
    requires { NOTES * row.0 + k < length notes.now }
    ensures { result.0 ≡ note_at notes.now row.0 k }
{
    NameId(note(notes, row, k))
}

// The number of a name of the row at a position.
pub fn name_at(notes: &[u16], position: Position, k: usize) -> NameId
    requires { (0 < position.0) × (NOTES * position.0 ≤ length notes.now) × (k < NOTES) }
    ensures { result.0 ≡ note_at notes.now (position.0 - 1) k }
{
    name(notes, row_at(position), k)
}

// Notes the number of a name of a row.
pub fn set_name(notes: &mut [u16], row: Row, k: usize, name: NameId)
    requires { NOTES * row.0 + k < length notes.old }
    ensures { notes.new ≡ noted notes.old row.0 k name.0 }
{
    set_note(notes, row, k, name.0);
}

// A link of a row.
pub fn link(notes: &[u16], row: Row, k: usize) -> Position
    requires { NOTES * row.0 + k < length notes.now }
    ensures { result.0 ≡ note_at notes.now row.0 k }
{
    Position(note(notes, row, k))
}

// A link of the row at a position.
pub fn link_at(notes: &[u16], position: Position, k: usize) -> Position
    requires { (0 < position.0) × (NOTES * position.0 ≤ length notes.now) × (k < NOTES) }
    ensures { result.0 ≡ note_at notes.now (position.0 - 1) k }
{
    link(notes, row_at(position), k)
}

// Notes a link of a row.
pub fn set_link(notes: &mut [u16], row: Row, k: usize, position: Position)
    requires { NOTES * row.0 + k < length notes.old }
    ensures { notes.new ≡ noted notes.old row.0 k position.0 }
{
    set_note(notes, row, k, position.0);
}

// The position of a row.
pub fn position_of(row: Row) -> Position
    requires { row.0 < 65535 }
    ensures { result.0 ≡ row.0 + 1 }
{
    Position(row.0 as u16 + 1)
}

// The row at a position.
pub fn row_at(position: Position) -> Row
    requires { 0 < position.0 }
    ensures { result.0 ≡ position.0 - 1 }
{
    Row(position.0 as u32 - 1)
}
