// What becomes of each row of a table that is salvaged, a word for each beside the table: 0 where the row is kept, and else
// the number, 6 or 7, of the refusal that it is dropped for.
#![tactic(auto)]

ghost use Rattle.std.specs.Prelude.{◌≡◌, not, ◌<◌, eqb, length, get_or, set};
ghost use Rattle.rules.specs.Answers.{check_number};

use refusal_numbers::Number;
use rules::{Refusal, Row};

// Notes the fate of a row, by the conflict that it has.
pub fn note(fates: &mut [u32], row: Row, conflict: Result<(), Refusal>)
    requires { row.0 < length fates.old }
    ensures { fates.new ≡ set fates.old row.0 (check_number conflict).number }
{
    let told = Number::from(conflict);
    fates[row.0 as usize] = told.number;
}

// The row is dropped.
pub fn is_dropped(fates: &[u32], row: Row) -> bool
    requires { row.0 < length fates.now }
    ensures { result ≡ not (eqb (get_or fates.now row.0 0) 0) }
{
    fates[row.0 as usize] != 0
}

// What a row is dropped for.
pub fn refusal(fates: &[u32], row: Row) -> u32
    requires { row.0 < length fates.now }
    ensures { result ≡ get_or fates.now row.0 0 }
{
    fates[row.0 as usize]
}
