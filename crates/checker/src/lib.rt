// The check of a node table: refusals 1 to 7 and 12 to 14. Each name of the table gets a number, equal
// exactly where the bytes are equal, and what a name is worth is found once for each number.
#![tactic(auto)]

ghost use Rattle.std.specs.Prelude.{◌≡◌, ℕ, ◌≤◌, ◌<◌, Ok, replicate};
ghost use Rattle.rules.specs.Refusals.{verdict, checked};
ghost use Rattle.notes.specs.Notes.{LATEST, note_at, NOTES as ROW_NOTES};
ghost use Rattle.dictionary.specs.Dictionary.{last_of, Dictionary};
ghost use Rattle.value_bytes.specs.Judging.{Judging};
ghost use Rattle.row_checks.specs.Pass.{rows_refusal};
ghost use Rattle.row_checks.specs.Arrays.{Enough, Named};
ghost use Rattle.checker.specs.Lent.{Lent};

use rules::Refusal;

// The words of the arrays that are lent for a small table and for any.
pub const SMALL_DICTIONARY: usize = dictionary::EMPTY_WORDS
    + 3 * table_size::FEW_ROWS * dictionary::WIDTH;

pub const SMALL_NOTES: usize = notes::NOTES * table_size::FEW_ROWS;

pub const DICTIONARY: usize = dictionary::EMPTY_WORDS + 3 * rules::MOST_ROWS * dictionary::WIDTH;

pub const NOTES: usize = notes::NOTES * rules::MOST_ROWS;

// The first refusal that the table draws, or that it is accepted.
pub fn check(table: &[u32], pool: &[u8]) -> Result<(), Refusal>
    ensures { result ≡ checked table.now pool.now }
{
    if table_size::has_many_rows(table) {
        return check_in::<DICTIONARY, NOTES>(table, pool);
    }
    check_in::<SMALL_DICTIONARY, SMALL_NOTES>(table, pool)
}

// The check, which leaves the numbers of the names in the notes of the rows, and what they stand for in
// the dictionary, where it accepts.
pub fn check_numbered(
    table: &[u32],
    pool: &[u8],
    dictionary: &mut [u16],
    notes: &mut [u16],
) -> Result<(), Refusal>
    requires { Lent table.now dictionary.old notes.old }
    ensures value { result ≡ checked table.now pool.now }
    ensures named { result ≡ Ok tt → Named table.now pool.now dictionary.new notes.new }
    ensures by_index { (q k : ℕ) → LATEST ≤ k → k < ROW_NOTES → note_at notes.new q k ≡ note_at notes.old q k }
{
    if table_size::is_bad(table, pool) {
        return Err(Refusal::Size);
    }
    let ascii = utf8::is_ascii(pool);
    let mut marks = [0; marks::WORDS];
    value_bytes::mark(table, pool, ascii, &mut marks);
    check_sized(table, pool, ascii, &marks, dictionary, notes)
}

// The check of a table whose size is not refused.
fn check_sized(
    table: &[u32],
    pool: &[u8],
    ascii: bool,
    marks: &[u16],
    dictionary: &mut [u16],
    notes: &mut [u16],
) -> Result<(), Refusal>
    requires enough { Enough table.now pool.now dictionary.old notes.old }
    requires judging { Judging pool.now marks.now ascii }
    requires dictionary { Dictionary dictionary.old pool.now × (last_of dictionary.old ≤ 0) }
    ensures value { result ≡ verdict (rows_refusal table.now pool.now) }
    ensures named { result ≡ Ok tt → Named table.now pool.now dictionary.new notes.new }
    ensures by_index { (q k : ℕ) → LATEST ≤ k → k < ROW_NOTES → note_at notes.new q k ≡ note_at notes.old q k }
{
    let first = row_checks::check_rows(table, pool, ascii, marks, dictionary, notes, true);
    if dictionary::is_hard(dictionary) {
        return check_hard(table, pool, ascii, marks, dictionary, notes);
    }
    first
}

// The check of a table whose names are hard for the plain hash, from the first row on.
fn check_hard(
    table: &[u32],
    pool: &[u8],
    ascii: bool,
    marks: &[u16],
    dictionary: &mut [u16],
    notes: &mut [u16],
) -> Result<(), Refusal>
    requires enough { Enough table.now pool.now dictionary.old notes.old }
    requires judging { Judging pool.now marks.now ascii }
    ensures value { result ≡ verdict (rows_refusal table.now pool.now) }
    ensures named { result ≡ Ok tt → Named table.now pool.now dictionary.new notes.new }
    ensures by_index { (q k : ℕ) → LATEST ≤ k → k < ROW_NOTES → note_at notes.new q k ≡ note_at notes.old q k }
{
    dictionary::harden(dictionary, table, pool);
    row_checks::check_rows(table, pool, ascii, marks, dictionary, notes, false)
}

// The check in arrays of so many words.
#[inline(never)]
fn check_in<const DICTIONARY_WORDS: usize, const NOTE_WORDS: usize>(
    table: &[u32],
    pool: &[u8],
) -> Result<(), Refusal>
    requires dictionary_size { DICTIONARY_WORDS < 65536 }
    requires note_size { NOTE_WORDS < 65536 }
    requires lent { Lent table.now (replicate DICTIONARY_WORDS 0) (replicate NOTE_WORDS 0) }
    ensures { result ≡ checked table.now pool.now }
{
    check_numbered(
        table,
        pool,
        &mut [0; DICTIONARY_WORDS],
        &mut [0; NOTE_WORDS],
    )
}
