// Which prefix is known to stand for which URI at which position, remembered in slots, one lent array.
#![tactic(auto)]

ghost use Rattle.std.specs.Prelude.{◌≡◌, true, ◌&&◌, ℕ, ◌+◌, ◌*◌, ◌≤◌, ◌<◌, eqb, length};
ghost use Rattle.rules.specs.Table.{row_count};
ghost use Rattle.notes.specs.Notes.{NOTES, PREFIX, URI, note_at};
ghost use Rattle.name_slots.specs.Slots.{SLOTS, WORDS, NEAR, DECLARED, STANDS, known_at, Held, remembered};

use rules::{Position, Row};

// The slots: a position, and the numbers of a prefix and of the URI that it stands for there.
const SLOTS: usize = 256;

pub const WORDS: usize = 3 * SLOTS;

const NEAR: usize = 0;

const DECLARED: usize = 1;

const STANDS: usize = 2;

// It is remembered that the row's prefix stands for its URI at a position. An attribute without a prefix has none that does.
pub fn is_known(table: &[u32], notes: &[u16], known: &[u16], row: Row, near: Position) -> bool
    requires { (row.0 < row_count table.now) × (NOTES * row.0 + NOTES ≤ length notes.now) × (WORDS ≤ length known.now) }
    ensures { result ≡ true → Held table.now notes.now known.now row.0 near.0 }
{
    let prefix = notes::name(notes, row, notes::PREFIX).0;
    if (prefix == 0) & (rows::kind(table, row) != rules::ELEMENT) {
        return false;
    }
    let uri = notes::name(notes, row, notes::URI).0;
    holds(known, slot_of(near.0, prefix, uri), near.0, prefix, uri)
}

// A slot remembers this.
fn holds(known: &[u16], slot: usize, near: u16, prefix: u16, uri: u16) -> bool
    requires { (slot < SLOTS) × (WORDS ≤ length known.now) }
    ensures { result ≡ (eqb (known_at known.now slot NEAR) near && eqb (known_at known.now slot DECLARED) prefix && eqb (known_at known.now slot STANDS) uri) }
{
    (known_word(known, slot, NEAR) == near)
        & (known_word(known, slot, DECLARED) == prefix)
        & (known_word(known, slot, STANDS) == uri)
}

// A word of a slot.
fn known_word(known: &[u16], slot: usize, k: usize) -> u16
    requires { (slot < SLOTS) × (k < 3) × (WORDS ≤ length known.now) }
    ensures { result ≡ known_at known.now slot k }
{
    known[3 * slot + k]
}

// The slot for a position and two names.
fn slot_of(near: u16, prefix: u16, uri: u16) -> usize
    ensures { result < SLOTS }
{
    (near as usize + 7 * prefix as usize + 29 * uri as usize) % SLOTS
}

// Remembers that the row's prefix stands for its URI at a position.
pub fn remember(notes: &[u16], known: &mut [u16], row: Row, near: Position)
    requires { (NOTES * row.0 + NOTES ≤ length notes.now) × (WORDS ≤ length known.old) }
    ensures { (s : ℕ) × (s < SLOTS) × (known.new ≡ remembered known.old s near.0 (note_at notes.now row.0 PREFIX) (note_at notes.now row.0 URI)) }
{
    let prefix = notes::name(notes, row, notes::PREFIX).0;
    let uri = notes::name(notes, row, notes::URI).0;
    let slot = slot_of(near.0, prefix, uri);
    fill(known, slot, near.0, prefix, uri);
}

// Fills a slot.
fn fill(known: &mut [u16], slot: usize, near: u16, prefix: u16, uri: u16)
    requires { (slot < SLOTS) × (WORDS ≤ length known.old) }
    ensures { known.new ≡ remembered known.old slot near prefix uri }
{
    known[3 * slot + NEAR] = near;
    known[3 * slot + DECLARED] = prefix;
    known[3 * slot + STANDS] = uri;
}
