// Which session bundles are small: their operations take arrays that are small too.
#![tactic(auto)]

ghost use Rattle.std.specs.Prelude.{◌≡◌, false, ◌≤◌, length};
ghost use Rattle.table_size.specs.Small.{FEW_ROWS, FEW_BYTES};
ghost use Rattle.bundles.specs.Bundles.{HEADER, bundle_pool_length};
ghost use Rattle.bundles.specs.Opening.{NamesAtMost};

use bundles::HEADER;

// A bundle names more than a few rows. One that ends before its rows names none.
pub fn has_many_rows(bundle: &[u8]) -> bool
    ensures { result ≡ false → NamesAtMost bundle.now FEW_ROWS }
{
    if bundle.len() < HEADER {
        return false;
    }
    bundle_parts::row_count(bundle) > table_size::FEW_ROWS
}

// A bundle names a longer pool than a short one. One that ends before its rows names none.
pub fn has_long_pool(bundle: &[u8]) -> bool
    ensures { result ≡ false → HEADER ≤ length bundle.now → bundle_pool_length bundle.now ≤ FEW_BYTES }
{
    if bundle.len() < HEADER {
        return false;
    }
    bundle_parts::pool_length(bundle) > table_size::FEW_BYTES
}
