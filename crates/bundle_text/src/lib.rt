// The XML text of the bytes of a session bundle, whose rows are read into a table of its own: a small one for a
// bundle of few rows and a short pool.
#![tactic(auto)]

ghost use Rattle.std.specs.Prelude.{◌≡◌, length};
ghost use Rattle.table_size.specs.Small.{FEW_ROWS};
ghost use Rattle.bundles.specs.Opening.{NamesAtMost};
ghost use Rattle.markup.specs.Writing.{bundle_text};

use rules::{Refusal, Row};

// The words of the largest table, and of a small one.
const WORDS: usize = rules::WIDTH * rules::MOST_ROWS;

const FEW_WORDS: usize = rules::WIDTH * table_size::FEW_ROWS;

// Writes the XML text of an element, or of a document's element. Success answers the bytes that it takes; the rest of the output
// is zero, and all of it after a refusal.
pub fn write_xml(bundle: &[u8], row: Row, out: &mut [u8]) -> Result<usize, Refusal>
    ensures value { result ≡ (bundle_text bundle.now row.0 (length out.old)).answer }
    ensures out_after { out.new ≡ (bundle_text bundle.now row.0 (length out.old)).bytes }
{
    if small_bundles::has_many_rows(bundle) {
        return write_any(bundle, row, out);
    }
    if small_bundles::has_long_pool(bundle) {
        return write_any(bundle, row, out);
    }
    write_few(bundle, row, out)
}

// Writes the text from any bundle. It keeps its arrays, which are large, to itself.
#[inline(never)]
fn write_any(bundle: &[u8], row: Row, out: &mut [u8]) -> Result<usize, Refusal>
    ensures value { result ≡ (bundle_text bundle.now row.0 (length out.old)).answer }
    ensures out_after { out.new ≡ (bundle_text bundle.now row.0 (length out.old)).bytes }
{
    let mut words = [0; WORDS];
    match bundle_opening::read_rows(bundle, &mut words) {
        Ok(n) => {
            let pool = bundle_parts::pool(bundle);
            writer::write(bundle_parts::table(&words, n), pool, row, out)
        }
        Err(x) => bundles::refuse(out, x),
    }
}

// Writes the text from a bundle of few rows.
fn write_few(bundle: &[u8], row: Row, out: &mut [u8]) -> Result<usize, Refusal>
    requires { NamesAtMost bundle.now FEW_ROWS }
    ensures value { result ≡ (bundle_text bundle.now row.0 (length out.old)).answer }
    ensures out_after { out.new ≡ (bundle_text bundle.now row.0 (length out.old)).bytes }
{
    let mut words = [0; FEW_WORDS];
    match bundle_opening::read_rows(bundle, &mut words) {
        Ok(n) => {
            let pool = bundle_parts::pool(bundle);
            writer::write_few(bundle_parts::table(&words, n), pool, row, out)
        }
        Err(x) => bundles::refuse(out, x),
    }
}
