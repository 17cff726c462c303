// One row of a table over the packed pool. Its output row is a copy; its four fields are entered in word order, and those that have
// bytes get the offsets that they have there. Names are found by the numbers that are noted of the row, and other values by their
// bytes.
#![tactic(auto)]

ghost use Rattle.std.specs.Prelude.{◌≡◌, List, [], ◌∷◌, ℕ, ◌+◌, ◌-◌, ◌*◌, ◌≤◌, ◌<◌, length, set, ltb};
ghost use Rattle.rules.specs.Table.{WIDTH, VALUE, field_at};
ghost use Rattle.rows.specs.Reading.{HasField};
ghost use Rattle.notes.specs.Notes.{NOTES, PREFIX, LOCAL_NAME, URI, note_at};
ghost use Rattle.numbers.specs.Numbers.{Names};
ghost use Rattle.numbering.specs.Numbering.{Inside};
ghost use Rattle.packed_rows.specs.Rows.{Ready, State, Packs, field_of, name_fields, row_fields};

use rules::Row;

// Packs a row. Answers false where it does not fit, and where the names are found to be hard, if that matters.
pub fn pack_row(
    table: &[u32],
    pool: &[u8],
    tables: &[u16],
    notes: &[u16],
    index: &mut [u16],
    starts: &mut [u16],
    out_table: &mut [u32],
    out: &mut [u8],
    row: Row,
    limit: usize,
    easy: bool,
) -> bool
    requires { (spelling : ℕ → List ℕ) × (last : ℕ) × (names : List (List ℕ)) × Ready table.now pool.now tables.now notes.now out_table.old spelling last limit row.0 × State tables.now pool.now spelling last limit 4 index.old starts.old out.old names }
    ensures { (spelling : ℕ → List ℕ) (last more : ℕ) (names : List (List ℕ)) → Ready table.now pool.now tables.now notes.now out_table.old spelling last limit row.0 → State tables.now pool.now spelling last limit (more + 4) index.old starts.old out.old names → Packs tables.now pool.now spelling last limit more index.new starts.new out.new out_table.old out_table.new easy result names (row_fields table.now pool.now row.0) }
{
    if !pack_names(
        table, pool, tables, notes, index, starts, out_table, out, row, limit, easy,
    ) {
        return false;
    }
    pack_value(
        table, pool, tables, notes, index, starts, out_table, out, row, limit, easy,
    )
}

// The names of a row: its prefix, its local name and its URI. Of most rows that have none it is told at one look.
fn pack_names(
    table: &[u32],
    pool: &[u8],
    tables: &[u16],
    notes: &[u16],
    index: &mut [u16],
    starts: &mut [u16],
    out_table: &mut [u32],
    out: &mut [u8],
    row: Row,
    limit: usize,
    easy: bool,
) -> bool
    requires { (spelling : ℕ → List ℕ) × (last : ℕ) × (names : List (List ℕ)) × Ready table.now pool.now tables.now notes.now out_table.old spelling last limit row.0 × State tables.now pool.now spelling last limit 3 index.old starts.old out.old names }
    ensures { (spelling : ℕ → List ℕ) (last more : ℕ) (names : List (List ℕ)) → Ready table.now pool.now tables.now notes.now out_table.old spelling last limit row.0 → State tables.now pool.now spelling last limit (more + 3) index.old starts.old out.old names → Packs tables.now pool.now spelling last limit more index.new starts.new out.new out_table.old out_table.new easy result names (name_fields table.now pool.now row.0) }
{
    if has_no_names(notes, row) {
        return true;
    }
    if !pack_name(
        table,
        pool,
        tables,
        notes,
        index,
        starts,
        out_table,
        out,
        row,
        rules::PREFIX,
        notes::PREFIX,
        limit,
        easy,
    ) {
        return false;
    }
    if !pack_name(
        table,
        pool,
        tables,
        notes,
        index,
        starts,
        out_table,
        out,
        row,
        rules::LOCAL_NAME,
        notes::LOCAL_NAME,
        limit,
        easy,
    ) {
        return false;
    }
    pack_name(
        table,
        pool,
        tables,
        notes,
        index,
        starts,
        out_table,
        out,
        row,
        rules::URI,
        notes::URI,
        limit,
        easy,
    )
}

// The numbers of all three names of a row are 0.
fn has_no_names(notes: &[u16], row: Row) -> bool
    requires { NOTES * row.0 + NOTES ≤ length notes.now }
    ensures { result ≡ ltb (note_at notes.now row.0 PREFIX + note_at notes.now row.0 LOCAL_NAME + note_at notes.now row.0 URI) 1 }
{
    let prefix = notes::name(notes, row, notes::PREFIX).0 as u32;
    let local = notes::name(notes, row, notes::LOCAL_NAME).0 as u32;
    let uri = notes::name(notes, row, notes::URI).0 as u32;
    prefix + local + uri < 1
}

// The value of a row: of a declaration by its number, of another row by its place and its bytes.
fn pack_value(
    table: &[u32],
    pool: &[u8],
    tables: &[u16],
    notes: &[u16],
    index: &mut [u16],
    starts: &mut [u16],
    out_table: &mut [u32],
    out: &mut [u8],
    row: Row,
    limit: usize,
    easy: bool,
) -> bool
    requires { (spelling : ℕ → List ℕ) × (last : ℕ) × (names : List (List ℕ)) × Ready table.now pool.now tables.now notes.now out_table.old spelling last limit row.0 × State tables.now pool.now spelling last limit 1 index.old starts.old out.old names }
    ensures { (spelling : ℕ → List ℕ) (last more : ℕ) (names : List (List ℕ)) → Ready table.now pool.now tables.now notes.now out_table.old spelling last limit row.0 → State tables.now pool.now spelling last limit (more + 1) index.old starts.old out.old names → Packs tables.now pool.now spelling last limit more index.new starts.new out.new out_table.old out_table.new easy result names (field_of table.now pool.now row.0 VALUE ∷ []) }
{
    let place = rows::place(table, row, rules::VALUE);
    if place.length == 0 {
        return true;
    }
    if rows::kind(table, row) == rules::DECLARATION {
        return pack_name(
            table,
            pool,
            tables,
            notes,
            index,
            starts,
            out_table,
            out,
            row,
            rules::VALUE,
            notes::VALUE,
            limit,
            easy,
        );
    }
    let mark = packed_pool::mark_value(tables, pool, place, index, out, limit, easy);
    if mark == 0 {
        return false;
    }
    set_offset(out_table, row, rules::VALUE, mark);
    true
}

// A name of a row, whose number is noted as word k.
fn pack_name(
    table: &[u32],
    pool: &[u8],
    tables: &[u16],
    notes: &[u16],
    index: &mut [u16],
    starts: &mut [u16],
    out_table: &mut [u32],
    out: &mut [u8],
    row: Row,
    field: u32,
    k: usize,
    limit: usize,
    easy: bool,
) -> bool
    requires by_index { (spelling : ℕ → List ℕ) × (last : ℕ) × (names : List (List ℕ)) × Ready table.now pool.now tables.now notes.now out_table.old spelling last limit row.0 × State tables.now pool.now spelling last limit 1 index.old starts.old out.old names × Names spelling last (note_at notes.now row.0 k) (field_at table.now pool.now row.0 field).bytes }
    requires has_field { HasField table.now row.0 field × Inside table.now pool.now row.0 field × (k < NOTES) }
    ensures { (spelling : ℕ → List ℕ) (last more : ℕ) (names : List (List ℕ)) → Ready table.now pool.now tables.now notes.now out_table.old spelling last limit row.0 → State tables.now pool.now spelling last limit (more + 1) index.old starts.old out.old names → Names spelling last (note_at notes.now row.0 k) (field_at table.now pool.now row.0 field).bytes → Packs tables.now pool.now spelling last limit more index.new starts.new out.new out_table.old out_table.new easy result names (field_of table.now pool.now row.0 field ∷ []) }
{
    let number = notes::name(notes, row, k);
    if number.0 == 0 {
        return true;
    }
    let known = starts[number.0 as usize];
    if known > 0 {
        set_offset(out_table, row, field, known);
        return true;
    }
    let place = rows::place(table, row, field);
    let mark = packed_pool::mark_name(tables, pool, place, index, out, limit, easy);
    if mark == 0 {
        return false;
    }
    starts[number.0 as usize] = mark;
    set_offset(out_table, row, field, mark);
    true
}

// Sets the offset of a field of a row to where a name of this mark starts.
fn set_offset(out_table: &mut [u32], row: Row, field: u32, mark: u16)
    requires { (WIDTH * row.0 + WIDTH ≤ length out_table.old) × (field < WIDTH) × (0 < mark) }
    ensures { out_table.new ≡ set out_table.old (WIDTH * row.0 + field) (mark - 1) }
{
    out_table[rules::WIDTH * row.0 as usize + field as usize] = mark as u32 - 1;
}
