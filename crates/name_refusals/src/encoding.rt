// Refusal 14: a field that is not well-formed UTF-8.
ghost use Rattle.std.specs.Prelude.{◌≡◌, ◌<◌, Err};
ghost use Rattle.rules.specs.Table.{VALUE, row_count, field_at, node_at};
ghost use Rattle.rules.specs.Utf8.{well_formed};
ghost use Rattle.rules.specs.Refusals.{verdict, encodings_refusal};
ghost use Rattle.rules.specs.declared.Refusal.{Refusal};
ghost use Rattle.row_names.specs.RowNames.{kinds_of};

use kinds::MALFORMED;
use row_names::Kinds;
use rules::{Refusal, Row};

// The first refusal that a field of the row draws.
pub fn check(
    table: &[u32],
    pool: &[u8],
    formed: bool,
    kinds: Kinds,
    row: Row,
) -> Result<(), Refusal>
    requires row_bound { row.0 < row_count table.now }
    requires formed_value { formed ≡ well_formed (field_at table.now pool.now row.0 VALUE).bytes }
    requires kinds_value { kinds ≡ kinds_of (node_at table.now pool.now row.0) }
    ensures { result ≡ verdict (encodings_refusal row.0 (node_at table.now pool.now row.0)) }
{
    if kinds.prefix == MALFORMED {
        return malformed(row, rules::PREFIX);
    }
    if kinds.local == MALFORMED {
        return malformed(row, rules::LOCAL_NAME);
    }
    if kinds.uri == MALFORMED {
        return malformed(row, rules::URI);
    }
    if !formed {
        return malformed(row, rules::VALUE);
    }
    Ok(())
}

pub fn malformed(row: Row, word: u32) -> Result<(), Refusal>
    ensures { result ≡ Err (Refusal.MalformedUtf8 row word) }
{
    Err(Refusal::MalformedUtf8 { row, word })
}
