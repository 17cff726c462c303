// The result of an input that draws none of the refusals of an input, made in place: in the first rows of a table and the
// first bytes of a working pool, by the limits of a table.
#![tactic(auto)]

ghost use Rattle.std.specs.Prelude.{◌*◌, take};
ghost use Rattle.rules.specs.Table.{WIDTH};
ghost use Rattle.input.specs.Lent.{Enough, Prepared};
ghost use Rattle.normal_form.specs.Result.{RoomFor, Made};
ghost use Rattle.normal_form.specs.Lent.{Topped};

use repair::Sizes;
use rules::{Filled, Refusal};

// Normalizes an input in place that draws none of the refusals of an input.
pub fn normalize_accepted(
    words: &mut [u32],
    work: &mut [u8],
    notes: &mut [u16],
    path: &mut [u16],
    tops: &mut [u16],
    rows: usize,
    bytes: usize,
    names: u16,
) -> Result<Filled, Refusal>
    requires room_for { RoomFor words.old work.old rows bytes }
    requires enough { Enough rows notes.old path.old }
    requires topped { Topped rows tops.old }
    requires prepared { Prepared (take (WIDTH * rows) words.old) (take bytes work.old) notes.old path.old names }
    ensures { Made result words.new work.new (take (WIDTH * rows) words.old) (take bytes work.old) }
{
    let sizes = Sizes {
        rows,
        bytes,
        names,
        free: 1,
        limit: rules::MOST_ROWS,
    };
    let made = normal_form::make_result(words, work, notes, path, tops, sizes);
    outputs::room(made.rows, made.bytes, rules::MOST_ROWS, rules::MOST_BYTES)?;
    Ok(Filled {
        rows: made.rows,
        bytes: made.bytes,
    })
}
