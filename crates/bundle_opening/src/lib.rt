// Opening a session bundle: its refusals, and its rows as words. A table for the rows is made of zeros, which are
// filled in quickest; only what was read into it is looked at.
#![tactic(auto)]

ghost use Rattle.std.specs.Prelude.{◌≡◌, ℕ, Ok, Err};
ghost use Rattle.std.proofs.Math.Option.{some};
ghost use Rattle.rules.specs.Refusals.{verdict};
ghost use Rattle.rules.specs.declared.Refusal.{Refusal};
ghost use Rattle.bundles.specs.Bundles.{wrong_mark, other_version, bad_lengths};
ghost use Rattle.bundles.specs.Opening.{opening_refusal, HasRoom, Opens};

use bundles::HEADER;
use rules::Refusal;

// Opens a bundle: reads its rows into the start of a table that has room for them, and answers how many there are. Refuses with 30 to 32, and
// with 1 for more rows or pool bytes than there may be.
pub fn read_rows(bundle: &[u8], table: &mut [u32]) -> Result<usize, Refusal>
    requires { HasRoom bundle.now table.old }
    ensures by_index { (n : ℕ) → result ≡ Ok n → Opens bundle.now table.new n }
    ensures bundle_value { (x : Refusal) → result ≡ Err x → opening_refusal bundle.now ≡ some x }
{
    judge(bundle)?;
    let rows = bundle_parts::row_count(bundle);
    if bundle_parts::is_old(bundle) {
        old_rows::read(&bundle[HEADER..], table, rows);
        return Ok(rows);
    }
    little_endian::read_words(&bundle[HEADER..], table, rules::WIDTH * rows);
    Ok(rows)
}

// Refusals 30 to 32, and 1.
fn judge(bundle: &[u8]) -> Result<(), Refusal>
    ensures { result ≡ verdict (opening_refusal bundle.now) }
{
    if wrong_mark(bundle) {
        return Err(Refusal::Mark);
    }
    if other_version(bundle) {
        return Err(Refusal::Version);
    }
    if bad_lengths(bundle) {
        return Err(Refusal::Lengths);
    }
    if bundle_parts::row_count(bundle) > rules::MOST_ROWS {
        return Err(Refusal::Size);
    }
    if bundle_parts::pool_length(bundle) > rules::MOST_BYTES {
        return Err(Refusal::Size);
    }
    Ok(())
}

// 30: another mark, or the bytes end before it is whole.
fn wrong_mark(bundle: &[u8]) -> bool
    ensures { result ≡ wrong_mark bundle.now }
{
    if bundle.len() < 3 {
        return true;
    }
    !names::same(&bundle[..3], &bundles::MARK)
}

// 31: the bytes end before the version is whole, or it is another.
fn other_version(bundle: &[u8]) -> bool
    ensures { result ≡ other_version bundle.now }
{
    if bundle.len() < 5 {
        return true;
    }
    let version = bundle_parts::version(bundle);
    (version != bundles::VERSION as u32) & (version != bundles::OLD_VERSION as u32)
}

// 32: the bytes end before the rows, a zero byte that is not zero, or lengths that disagree.
fn bad_lengths(bundle: &[u8]) -> bool
    ensures { result ≡ bad_lengths bundle.now }
{
    if bundle.len() < HEADER {
        return true;
    }
    if bundle[5] != 0 {
        return true;
    }
    bundle.len() != bundle_parts::pool_start(bundle) + bundle_parts::pool_length(bundle)
}
