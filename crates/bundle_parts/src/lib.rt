// The parts of a session bundle: the numbers that it names, its rows, once they are read, and its pool.
#![tactic(auto)]

ghost use Rattle.std.specs.Prelude.{◌≡◌, ◌*◌, ◌≤◌, ◌<◌, length, take};
ghost use Rattle.rules.specs.Table.{WIDTH};
ghost use Rattle.bundles.specs.Bundles.{HEADER, bundle_version, bundle_rows, bundle_pool_length, is_old, pool_start, bundle_pool};

use bundles::{HEADER, OLD_ROW_BYTES, OLD_VERSION, ROW_BYTES};

// The version that a bundle names.
pub fn version(bundle: &[u8]) -> u32
    requires { 5 ≤ length bundle.now }
    ensures { result ≡ bundle_version bundle.now }
{
    little_endian::short(bundle, 3)
}

// The bundle is of the version before makers.
pub fn is_old(bundle: &[u8]) -> bool
    requires { HEADER ≤ length bundle.now }
    ensures { result ≡ is_old bundle.now }
{
    version(bundle) == OLD_VERSION as u32
}

// The row count that a bundle names.
pub fn row_count(bundle: &[u8]) -> usize
    requires { HEADER ≤ length bundle.now }
    ensures { (result ≡ bundle_rows bundle.now) × (result < 4294967296) }
{
    wide(little_endian::short(bundle, 6))
}

// The pool length that a bundle names.
pub fn pool_length(bundle: &[u8]) -> usize
    requires { HEADER ≤ length bundle.now }
    ensures { (result ≡ bundle_pool_length bundle.now) × (result < 4294967296) }
{
    wide(little_endian::word(bundle, 8))
}

// The rows of a bundle, so many, as a table: they stand at the start of the words that it was read into.
pub fn table(words: &[u32], rows: usize) -> &[u32]
    requires { WIDTH * rows ≤ length words.now }
    ensures { result.now ≡ take (WIDTH * rows) words.now }
{
    &words[..rules::WIDTH * rows]
}

// Where the pool of a bundle starts: behind its rows, which take ten words each or eleven, by the version.
pub fn pool_start(bundle: &[u8]) -> usize
    requires { HEADER ≤ length bundle.now }
    ensures { (result ≡ pool_start bundle.now) × (result < 4294967296 * 64) }
{
    let rows = row_count(bundle);
    if is_old(bundle) {
        return HEADER + OLD_ROW_BYTES * rows;
    }
    HEADER + ROW_BYTES * rows
}

// The pool of a bundle.
pub fn pool(bundle: &[u8]) -> &[u8]
    requires { pool_start bundle.now ≤ length bundle.now }
    ensures { result.now ≡ bundle_pool bundle.now }
{
    &bundle[pool_start(bundle)..]
}

// Copies the pool of a bundle to the start of a working pool; answers how many bytes it has.
pub fn copy_pool(bundle: &[u8], work: &mut [u8]) -> usize
    requires bundle_in_bounds { pool_start bundle.now ≤ length bundle.now }
    requires bundle_in_bounds_2 { length (bundle_pool bundle.now) ≤ length work.old }
    ensures value { result ≡ length (bundle_pool bundle.now) }
    ensures work_after { take result work.new ≡ bundle_pool bundle.now }
{
    let bytes = pool(bundle);
    buffers::copy_bytes(bytes, work);
    bytes.len()
}

// A number of the bundle as a length.
fn wide(x: u32) -> usize
    ensures { (result ≡ x) × (result < 4294967296) }
{
    x as usize
}
