// All rows of a table over the packed pool. Where values make the names hard for the plain hash, the rows are packed from the first
// on once more, with the hash of a key.
#![tactic(auto)]

ghost use Rattle.std.specs.Prelude.{◌≡◌, false, ◌&&◌, List, ℕ, ◌+◌, ◌≤◌, length, get_or};
ghost use Rattle.entries.specs.Entries.{NAMES, WIDTH, tables_of};
ghost use Rattle.dictionary.specs.Dictionary.{PLACES, entries_of, Dictionary};
ghost use Rattle.packed_index.specs.Index.{USED};
ghost use Rattle.packed_pool.specs.Marking.{is_hard};
ghost use Rattle.packed_table.specs.Packed.{Enough, Blank, Noted, Start, TablePacked};

use rules::Row;

// What packing made: whether the packed pool fits, and how many bytes it has.
#[derive(Clone, Copy)]
pub struct Packed {
    pub fits: bool,
    pub used: usize,
}

// Packs the rows of a table that the check accepts, the numbers of its names noted, into an output table, and the names into an
// output pool, as far as it goes. The packed pool fits if it has no more bytes than a limit.
pub fn pack(
    table: &[u32],
    pool: &[u8],
    dictionary: &mut [u16],
    notes: &[u16],
    index: &mut [u16],
    starts: &mut [u16],
    out_table: &mut [u32],
    out: &mut [u8],
    limit: usize,
) -> Packed
    requires enough { Enough table.now pool.now notes.now index.old starts.old out_table.old limit }
    requires dictionary { Dictionary dictionary.old pool.now × Blank index.old starts.old }
    requires by_index { (spelling : ℕ → List ℕ) × (last : ℕ) × Noted table.now pool.now notes.now spelling last }
    ensures { TablePacked table.now pool.now out_table.new out.new limit false result.fits result.used }
{
    buffers::copy_words(table, out_table);
    let easy = is_plain(dictionary);
    let fits = pack_rows(
        table,
        pool,
        tables_of(dictionary),
        notes,
        index,
        starts,
        out_table,
        out,
        limit,
        easy,
    );
    if easy & packed_pool::is_hard(index) {
        return pack_hard(
            table, pool, dictionary, notes, index, starts, out_table, out, limit,
        );
    }
    Packed {
        fits,
        used: packed_pool::used(index),
    }
}

// The same of a table whose names are hard for the plain hash, from the first row on.
fn pack_hard(
    table: &[u32],
    pool: &[u8],
    dictionary: &mut [u16],
    notes: &[u16],
    index: &mut [u16],
    starts: &mut [u16],
    out_table: &mut [u32],
    out: &mut [u8],
    limit: usize,
) -> Packed
    requires enough { Enough table.now pool.now notes.now index.old starts.old out_table.old limit }
    requires in_bounds { PLACES + NAMES + WIDTH ≤ length dictionary.old }
    requires by_index { (spelling : ℕ → List ℕ) × (last : ℕ) × Noted table.now pool.now notes.now spelling last }
    ensures { TablePacked table.now pool.now out_table.new out.new limit false result.fits result.used }
{
    dictionary::harden(dictionary, table, pool);
    index.fill(0);
    starts.fill(0);
    buffers::copy_words(table, out_table);
    let fits = pack_rows(
        table,
        pool,
        tables_of(dictionary),
        notes,
        index,
        starts,
        out_table,
        out,
        limit,
        false,
    );
    Packed {
        fits,
        used: packed_pool::used(index),
    }
}

// The rows, one after the other. It stops where they do not fit, and, where that matters, once the names are hard.
fn pack_rows(
    table: &[u32],
    pool: &[u8],
    tables: &[u16],
    notes: &[u16],
    index: &mut [u16],
    starts: &mut [u16],
    out_table: &mut [u32],
    out: &mut [u8],
    limit: usize,
    easy: bool,
) -> bool
    requires { (spelling : ℕ → List ℕ) × (last : ℕ) × (rest : List ℕ) × Start table.now pool.now tables.now notes.now index.old starts.old out_table.old limit spelling last rest }
    ensures { TablePacked table.now pool.now out_table.new out.new limit (easy && is_hard index.new) result (get_or index.new USED 0) }
{
    for r in 0..rows::row_count(table) as u32 {
        if !packed_rows::pack_row(
            table,
            pool,
            tables,
            notes,
            index,
            starts,
            out_table,
            out,
            Row(r),
            limit,
            easy,
        ) {
            return false;
        }
    }
    true
}

// The tables of the pool in a dictionary.
fn tables_of(dictionary: &[u16]) -> &[u16]
    requires { PLACES + NAMES ≤ length dictionary.now }
    ensures { result.now ≡ tables_of (entries_of dictionary.now) }
{
    &dictionary[dictionary::PLACES + entries::TABLES..dictionary::PLACES + entries::NAMES]
}

// No tables are made, so that names have the plain hash. Nothing but time depends on it.
fn is_plain(dictionary: &[u16]) -> bool
    requires { PLACES + NAMES ≤ length dictionary.now }
{
    dictionary[dictionary::PLACES + entries::TABLES] == 0
}
