// Refusals 3 and 12 of a field: it runs past the pool, or has an offset and no length.
ghost use Rattle.std.specs.Prelude.{◌≡◌};
ghost use Rattle.rules.specs.Refusals.{verdict};
ghost use Rattle.rows.specs.Reading.{HasField};
ghost use Rattle.single_fields.specs.Single.{place_refusal_at};

use rows::wide;
use rules::{Refusal, Row};

// The refusal that the field draws whose offset is that word: 3 before 12.
pub fn check(table: &[u32], pool: &[u8], row: Row, word: u32) -> Result<(), Refusal>
    requires { HasField table.now row.0 word }
    ensures { result ≡ verdict (place_refusal_at table.now pool.now row.0 word) }
{
    let place = rows::place(table, row, word);
    let offset = place.offset.0;
    let length = place.length;
    let past_pool = wide(offset) + wide(length) > pool.len();
    let without_length = (length == 0) & (offset != 0);
    if past_pool {
        return Err(Refusal::PastPool { row, word });
    }
    if without_length {
        return Err(Refusal::OffsetWithoutLength { row, word });
    }
    Ok(())
}
