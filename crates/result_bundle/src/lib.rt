// The result of a normalization, as it stands in the buffers that it was made in, written as a session bundle.
#![tactic(auto)]

ghost use Rattle.std.specs.Prelude.{◌≡◌, List, ℕ, length};
ghost use Rattle.normal_form.specs.Result.{Made};
ghost use Rattle.bundles.specs.Operations.{normalized_into};

use rules::{Filled, Refusal};

// Writes what a normalization in place made as a bundle, or refuses as it did.
pub fn write_made(
    made: Result<Filled, Refusal>,
    words: &[u32],
    work: &[u8],
    out: &mut [u8],
) -> Result<usize, Refusal>
    requires { (table : List ℕ) × (pool : List ℕ) × Made made words.now work.now table pool }
    ensures by_index { (table pool : List ℕ) → Made made words.now work.now table pool → result ≡ (normalized_into table pool (length out.old)).answer }
    ensures by_index_2 { (table pool : List ℕ) → Made made words.now work.now table pool → out.new ≡ (normalized_into table pool (length out.old)).bytes }
{
    match made {
        Ok(filled) => {
            let Filled { rows, bytes } = filled;
            bundle_encoding::write_bundle(&words[..rules::WIDTH * rows], &work[..bytes], out)
        }
        Err(x) => bundles::refuse(out, x),
    }
}
