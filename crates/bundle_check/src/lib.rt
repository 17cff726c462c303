// The check over the bytes of a session bundle, whose rows are read into a table of its own: a small one for a bundle of few
// rows.
#![tactic(auto)]

ghost use Rattle.std.specs.Prelude.{◌≡◌, replicate, ◌<◌};
ghost use Rattle.bundles.specs.Operations.{bundle_checked};
ghost use Rattle.bundles.specs.Opening.{HasRoom};

use rules::Refusal;

// The words of the largest table, and of a small one.
const WORDS: usize = rules::WIDTH * rules::MOST_ROWS;

const FEW_WORDS: usize = rules::WIDTH * table_size::FEW_ROWS;

// The first refusal that a bundle draws, or that it is accepted.
pub fn check(bundle: &[u8]) -> Result<(), Refusal>
    ensures { result ≡ bundle_checked bundle.now }
{
    if small_bundles::has_many_rows(bundle) {
        return check_in::<WORDS>(bundle);
    }
    check_in::<FEW_WORDS>(bundle)
}

// The check in a table of so many words.
#[inline(never)]
fn check_in<const TABLE_WORDS: usize>(bundle: &[u8]) -> Result<(), Refusal>
    requires table_size { TABLE_WORDS < 65536 }
    requires has_room { HasRoom bundle.now (replicate TABLE_WORDS 0) }
    ensures { result ≡ bundle_checked bundle.now }
{
    let mut words = [0; TABLE_WORDS];
    let rows = bundle_opening::read_rows(bundle, &mut words)?;
    checker::check(
        bundle_parts::table(&words, rows),
        bundle_parts::pool(bundle),
    )
}
