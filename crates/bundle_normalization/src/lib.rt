// Normalization of the bytes of a session bundle into another one, in a table and a working pool of its own.
#![tactic(auto)]

ghost use Rattle.std.specs.Prelude.{◌≡◌, length};
ghost use Rattle.bundles.specs.Operations.{bundle_normalized};
ghost use Rattle.bundle_normalization.specs.Small.{Small};

use rules::Refusal;

// The words of the largest table.
const WORDS: usize = rules::WIDTH * rules::MOST_ROWS;

// Normalizes a bundle into a bundle: so that every element and every owned attribute means its URI in scope, whatever the
// other rows hold. Success answers the bytes that it takes; the rest of the output is zero, and all of it after a refusal.
pub fn normalize(bundle: &[u8], out: &mut [u8]) -> Result<usize, Refusal>
    ensures value { result ≡ (bundle_normalized bundle.now (length out.old)).answer }
    ensures out_after { out.new ≡ (bundle_normalized bundle.now (length out.old)).bytes }
{
    if small_bundles::has_many_rows(bundle) {
        return normalize_any(bundle, out);
    }
    if small_bundles::has_long_pool(bundle) {
        return normalize_any(bundle, out);
    }
    normalize_few(bundle, out)
}

// Normalizes any bundle. It keeps its arrays, which are large, to itself.
#[inline(never)]
fn normalize_any(bundle: &[u8], out: &mut [u8]) -> Result<usize, Refusal>
    ensures value { result ≡ (bundle_normalized bundle.now (length out.old)).answer }
    ensures out_after { out.new ≡ (bundle_normalized bundle.now (length out.old)).bytes }
{
    let mut words = [0; WORDS];
    match bundle_opening::read_rows(bundle, &mut words) {
        Ok(n) => {
            let mut work = [0; normal_form::WORK];
            let bytes = bundle_parts::copy_pool(bundle, &mut work);
            let made = in_place::normalize(&mut words, &mut work, n, bytes);
            result_bundle::write_made(made, &words, &work, out)
        }
        Err(x) => bundles::refuse(out, x),
    }
}

// Normalizes a small bundle.
fn normalize_few(bundle: &[u8], out: &mut [u8]) -> Result<usize, Refusal>
    requires { Small bundle.now }
    ensures value { result ≡ (bundle_normalized bundle.now (length out.old)).answer }
    ensures out_after { out.new ≡ (bundle_normalized bundle.now (length out.old)).bytes }
{
    let mut words = [0; in_place::FEW_WORDS];
    match bundle_opening::read_rows(bundle, &mut words) {
        Ok(n) => {
            let mut work = [0; in_place::FEW_WORK];
            let bytes = bundle_parts::copy_pool(bundle, &mut work);
            let made = in_place::normalize_few(&mut words, &mut work, n, bytes);
            result_bundle::write_made(made, &words, &work, out)
        }
        Err(x) => bundles::refuse(out, x),
    }
}
