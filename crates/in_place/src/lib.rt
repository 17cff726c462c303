// Namespace normalization in place, of the first rows of a table and the first bytes of a working pool, by the
// limits of a table. Success answers the rows and bytes of the result, which then stand there; what stands
// behind them is not told.
#![tactic(auto)]

ghost use Rattle.std.specs.Prelude.{◌*◌, ◌≤◌, take};
ghost use Rattle.rules.specs.Table.{WIDTH};
ghost use Rattle.table_size.specs.Small.{FEW_ROWS};
ghost use Rattle.checker.specs.Lent.{Lent as Numbering};
ghost use Rattle.input.specs.Lent.{Blank};
ghost use Rattle.normal_form.specs.Result.{RoomFor, Made};
ghost use Rattle.normal_form.specs.Lent.{Topped};

use rules::{Filled, Refusal};

// The words and bytes that any result of a small table and its pool has room in.
pub const FEW_WORDS: usize = rules::WIDTH * 2 * table_size::FEW_ROWS;

pub const FEW_WORK: usize = table_size::FEW_BYTES + 6 * table_size::FEW_ROWS;

// Normalizes in place, in arrays for a small table.
pub fn normalize_few(
    words: &mut [u32],
    work: &mut [u8],
    rows: usize,
    bytes: usize,
) -> Result<Filled, Refusal>
    requires room_for { RoomFor words.old work.old rows bytes }
    requires rows_bound { rows ≤ FEW_ROWS }
    ensures { Made result words.new work.new (take (WIDTH * rows) words.old) (take bytes work.old) }
{
    let mut dictionary = [0; checker::SMALL_DICTIONARY];
    let mut notes = [0; input::SMALL_NOTES];
    let mut path = [0; input::SMALL_PATH];
    let mut tops = [0; normal_form::SMALL_TOPS];
    normalize_lent(
        words,
        work,
        &mut dictionary,
        &mut notes,
        &mut path,
        &mut tops,
        rows,
        bytes,
    )
}

// Normalizes in place, in arrays for any table.
pub fn normalize(
    words: &mut [u32],
    work: &mut [u8],
    rows: usize,
    bytes: usize,
) -> Result<Filled, Refusal>
    requires { RoomFor words.old work.old rows bytes }
    ensures { Made result words.new work.new (take (WIDTH * rows) words.old) (take bytes work.old) }
{
    let mut dictionary = [0; checker::DICTIONARY];
    let mut notes = [0; input::NOTES];
    let mut path = [0; input::PATH];
    let mut tops = [0; normal_form::TOPS];
    normalize_lent(
        words,
        work,
        &mut dictionary,
        &mut notes,
        &mut path,
        &mut tops,
        rows,
        bytes,
    )
}

// Normalizes in place, in arrays that are lent.
fn normalize_lent(
    words: &mut [u32],
    work: &mut [u8],
    dictionary: &mut [u16],
    notes: &mut [u16],
    path: &mut [u16],
    tops: &mut [u16],
    rows: usize,
    bytes: usize,
) -> Result<Filled, Refusal>
    requires room_for { RoomFor words.old work.old rows bytes }
    requires blank { Blank rows notes.old path.old }
    requires numbering { Numbering (take (WIDTH * rows) words.old) dictionary.old notes.old }
    requires topped { Topped rows tops.old }
    ensures { Made result words.new work.new (take (WIDTH * rows) words.old) (take bytes work.old) }
{
    let names = input::judge(
        &words[..rules::WIDTH * rows],
        &work[..bytes],
        dictionary,
        notes,
        path,
    )?;
    made_in_place::normalize_accepted(words, work, notes, path, tops, rows, bytes, names)
}
