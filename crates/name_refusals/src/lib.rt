// Refusals 14, 4 and 5 of one row for its names, in their order.
#![tactic(auto)]

ghost use Rattle.std.specs.Prelude.{◌≡◌, ◌<◌};
ghost use Rattle.rules.specs.Table.{VALUE, row_count, field_at, node_at};
ghost use Rattle.rules.specs.Utf8.{well_formed};
ghost use Rattle.rules.specs.Refusals.{verdict};
ghost use Rattle.row_names.specs.RowNames.{kinds_of};
ghost use Rattle.name_refusals.specs.NameRefusals.{names_refusal};

use row_names::{Kinds, name, namespace, plain};
use rules::{Refusal, Row};

mod encoding;

// The first of 14, 4 and 5 that the row draws for its names, which are of these kinds, and its value, of which it is
// known whether it is well-formed.
pub fn check(
    table: &[u32],
    pool: &[u8],
    formed: bool,
    kinds: Kinds,
    row: Row,
) -> Result<(), Refusal>
    requires row_bound { row.0 < row_count table.now }
    requires formed_value { formed ≡ well_formed (field_at table.now pool.now row.0 VALUE).bytes }
    requires kinds_value { kinds ≡ kinds_of (node_at table.now pool.now row.0) }
    ensures { result ≡ verdict (names_refusal row.0 (node_at table.now pool.now row.0)) }
{
    if plain::is_plain(rows::kind(table, row), kinds) {
        if !formed {
            return encoding::malformed(row, rules::VALUE);
        }
        return Ok(());
    }
    check_each(table, pool, formed, kinds, row)
}

// The tests one after the other.
fn check_each(
    table: &[u32],
    pool: &[u8],
    formed: bool,
    kinds: Kinds,
    row: Row,
) -> Result<(), Refusal>
    requires row_bound { row.0 < row_count table.now }
    requires formed_value { formed ≡ well_formed (field_at table.now pool.now row.0 VALUE).bytes }
    requires kinds_value { kinds ≡ kinds_of (node_at table.now pool.now row.0) }
    ensures { result ≡ verdict (names_refusal row.0 (node_at table.now pool.now row.0)) }
{
    let row_type = rows::kind(table, row);
    encoding::check(table, pool, formed, kinds, row)?;
    if name::bad(row_type, kinds) {
        return Err(Refusal::Names(row));
    }
    if namespace::bad(row_type, kinds) {
        return Err(Refusal::Namespace(row));
    }
    Ok(())
}
