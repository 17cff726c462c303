// The writes of normalization: a row's words in the table and its numbers in the notes.
#![tactic(auto)]

ghost use Rattle.std.specs.Prelude.{◌≡◌, ◌+◌, ◌*◌, ◌≤◌, ◌<◌, length, take};
ghost use Rattle.rules.specs.Table.{WIDTH, MOST_ROWS, PREFIX, LOCAL_NAME, URI, VALUE, MAKER, word, xml_prefix};
ghost use Rattle.rules.specs.Normalization.{numbered_prefix};
ghost use Rattle.rows.specs.Reading.{place_at};
ghost use Rattle.notes.specs.Notes as noting;
ghost use Rattle.buffers.specs.Writes.{written, placed, declaration_words};
ghost use Rattle.stacks.specs.Stacks.{PATH, NUMBERED, under_at};
ghost use Rattle.changes.specs.Changes.{noted_for, Named};

use rules::{NameId, Offset, Place, Row};

// Sets a declaration to the URI of its element.
pub fn set_value(table: &mut [u32], notes: &mut [u16], element: Row, declaration: Row, rows: usize)
    requires element_lt_rows { (element.0 < rows) × (declaration.0 < rows) × (rows ≤ MOST_ROWS) }
    requires rows_in_bounds { (WIDTH * rows ≤ length table.old) × (noting.NOTES * rows ≤ length notes.old) }
    ensures table_after { table.new ≡ placed table.old declaration.0 VALUE (place_at (take (WIDTH * rows) table.old) element.0 URI) }
    ensures notes_after { notes.new ≡ noting.noted notes.old declaration.0 noting.VALUE (noting.note_at notes.old element.0 noting.URI) }
{
    let uri = rows::place(&table[..rules::WIDTH * rows], element, rules::URI);
    additions::set_place(table, declaration, rules::VALUE, uri);
    let number = notes::name(notes, element, notes::URI);
    notes::set_name(notes, declaration, notes::VALUE, number);
}

// Gives an attribute the prefix of a declaration.
pub fn take_prefix(
    table: &mut [u32],
    notes: &mut [u16],
    attribute: Row,
    declaration: Row,
    rows: usize,
)
    requires attribute_lt_rows { (attribute.0 < rows) × (declaration.0 < rows) × (rows ≤ MOST_ROWS) }
    requires rows_in_bounds { (WIDTH * rows ≤ length table.old) × (noting.NOTES * rows ≤ length notes.old) }
    ensures table_after { table.new ≡ placed table.old attribute.0 PREFIX (place_at (take (WIDTH * rows) table.old) declaration.0 LOCAL_NAME) }
    ensures notes_after { notes.new ≡ noting.noted notes.old attribute.0 noting.PREFIX (noting.note_at notes.old declaration.0 noting.LOCAL_NAME) }
{
    let prefix = rows::place(
        &table[..rules::WIDTH * rows],
        declaration,
        rules::LOCAL_NAME,
    );
    additions::set_place(table, attribute, rules::PREFIX, prefix);
    let number = notes::name(notes, declaration, notes::LOCAL_NAME);
    notes::set_name(notes, attribute, notes::PREFIX, number);
}

// Writes the declaration that a row needs behind the rows: of its prefix, as its URI, and by its maker.
pub fn write_declaration(table: &mut [u32], notes: &mut [u16], owner: Row, row: Row, rows: usize)
    requires row_lt_rows { (row.0 < rows) × (rows < MOST_ROWS) }
    requires rows_in_bounds { (WIDTH * rows + WIDTH ≤ length table.old) × (noting.NOTES * rows + noting.NOTES ≤ length notes.old) }
    ensures table_after { table.new ≡ written table.old (WIDTH * rows) (declaration_words owner.0 (word (take (WIDTH * rows) table.old) row.0 MAKER) (place_at (take (WIDTH * rows) table.old) row.0 PREFIX) (place_at (take (WIDTH * rows) table.old) row.0 URI)) }
    ensures notes_after { notes.new ≡ noted_for notes.old rows row.0 }
{
    let words = &table[..rules::WIDTH * rows];
    let prefix = rows::place(words, row, rules::PREFIX);
    let uri = rows::place(words, row, rules::URI);
    let maker = rows::maker(words, row);
    let new = Row(rows as u32);
    additions::append_row(table, new, owner, maker, prefix, uri);
    note_declaration(notes, new, row);
}

// Notes the numbers of the declaration that a row needs.
fn note_declaration(notes: &mut [u16], new: Row, row: Row)
    requires { (row.0 < new.0) × (noting.NOTES * new.0 + noting.NOTES ≤ length notes.old) }
    ensures { notes.new ≡ noted_for notes.old new.0 row.0 }
{
    let prefix = notes::name(notes, row, notes::PREFIX);
    let uri = notes::name(notes, row, notes::URI);
    notes::set_name(notes, new, notes::PREFIX, NameId(0));
    notes::set_name(notes, new, notes::LOCAL_NAME, prefix);
    notes::set_name(notes, new, notes::URI, NameId(0));
    notes::set_name(notes, new, notes::VALUE, uri);
}

// Gives an attribute the prefix xml, appended to the pool. Answers how many bytes of the pool count then.
pub fn take_xml(
    table: &mut [u32],
    pool: &mut [u8],
    notes: &mut [u16],
    path: &[u16],
    attribute: Row,
    bytes: usize,
) -> usize
    requires attribute_in_bounds { (WIDTH * attribute.0 + PREFIX + 1 < length table.old) × (noting.NOTES * attribute.0 + noting.PREFIX < length notes.old) × (PATH ≤ length path.now) }
    requires bytes_in_bounds { (bytes + 6 ≤ length pool.old) × (length pool.old < 65536) }
    ensures { Named table.old table.new pool.old pool.new notes.old notes.new attribute.0 bytes result (under_at path.now NUMBERED 0) xml_prefix }
{
    buffers::append_bytes(pool, Offset(bytes as u32), b"xml");
    let place = Place {
        offset: Offset(bytes as u32),
        length: 3,
    };
    additions::set_place(table, attribute, rules::PREFIX, place);
    notes::set_name(notes, attribute, notes::PREFIX, stacks::xml(path));
    bytes + 3
}

// Gives an attribute the NS prefix of k, which has this number, appended to the pool. Answers how many
// bytes of the pool count then.
pub fn take_numbered(
    table: &mut [u32],
    pool: &mut [u8],
    notes: &mut [u16],
    attribute: Row,
    k: u16,
    number: NameId,
    bytes: usize,
) -> usize
    requires attribute_in_bounds { (WIDTH * attribute.0 + PREFIX + 1 < length table.old) × (noting.NOTES * attribute.0 + noting.PREFIX < length notes.old) × (k < 10000) }
    requires bytes_in_bounds { (bytes + 6 ≤ length pool.old) × (length pool.old < 65536) }
    ensures { Named table.old table.new pool.old pool.new notes.old notes.new attribute.0 bytes result number.0 (numbered_prefix k) }
{
    let length = additions::append_numbered(pool, Offset(bytes as u32), k as u32);
    let place = Place {
        offset: Offset(bytes as u32),
        length: length as u32,
    };
    additions::set_place(table, attribute, rules::PREFIX, place);
    notes::set_name(notes, attribute, notes::PREFIX, number);
    bytes + length
}
