// One lookup for every question over the bytes of a session bundle, whose rows are read into a table of its own: a small one for
// a bundle of few rows.
#![tactic(auto)]

ghost use Rattle.std.specs.Prelude.{◌≡◌, ◌<◌, replicate};
ghost use Rattle.bundles.specs.Operations.{bundle_lookup};
ghost use Rattle.bundles.specs.Opening.{HasRoom};

use rules::{Bound, Question, Refusal, Row};

// The words of the largest table, and of a small one.
const WORDS: usize = rules::WIDTH * rules::MOST_ROWS;

const FEW_WORDS: usize = rules::WIDTH * table_size::FEW_ROWS;

// The answer to any of the questions.
pub fn lookup(
    bundle: &[u8],
    row: Row,
    question: Question,
    query: &[u8],
) -> Result<Option<Bound>, Refusal>
    ensures { result ≡ bundle_lookup question bundle.now row.0 query.now }
{
    if small_bundles::has_many_rows(bundle) {
        return lookup_in::<WORDS>(bundle, row, question, query);
    }
    lookup_in::<FEW_WORDS>(bundle, row, question, query)
}

// The same, in a table of so many words.
#[inline(never)]
fn lookup_in<const TABLE_WORDS: usize>(
    bundle: &[u8],
    row: Row,
    question: Question,
    query: &[u8],
) -> Result<Option<Bound>, Refusal>
    requires table_size { TABLE_WORDS < 65536 }
    requires has_room { HasRoom bundle.now (replicate TABLE_WORDS 0) }
    ensures { result ≡ bundle_lookup question bundle.now row.0 query.now }
{
    let mut words = [0; TABLE_WORDS];
    let rows = bundle_opening::read_rows(bundle, &mut words)?;
    let table = bundle_parts::table(&words, rows);
    resolver::lookup(table, bundle_parts::pool(bundle), row, question, query)
}
