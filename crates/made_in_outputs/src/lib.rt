// The result of an input that draws none of the refusals of an input, made in lent outputs, by the rows that the output table
// holds.
#![tactic(auto)]

ghost use Rattle.std.specs.Prelude.{◌≡◌, length};
ghost use Rattle.rules.specs.Table.{row_count};
ghost use Rattle.rules.specs.Normalization.{normalized};
ghost use Rattle.input.specs.Lent.{Enough, Prepared};
ghost use Rattle.normal_form.specs.Lent.{Topped};

use repair::Sizes;
use rules::{Filled, Refusal};

// Normalizes an input that draws none of the refusals of an input.
pub fn normalize_accepted(
    table: &[u32],
    pool: &[u8],
    out_table: &mut [u32],
    out_pool: &mut [u8],
    notes: &mut [u16],
    path: &mut [u16],
    tops: &mut [u16],
    names: u16,
) -> Result<Filled, Refusal>
    requires enough { Enough (row_count table.now) notes.old path.old }
    requires topped { Topped (row_count table.now) tops.old }
    requires prepared { Prepared table.now pool.now notes.old path.old names }
    ensures value { result ≡ (normalized table.now pool.now (length out_table.old) (length out_pool.old)).answer }
    ensures out_table_after { out_table.new ≡ (normalized table.now pool.now (length out_table.old) (length out_pool.old)).table }
    ensures out_pool_after { out_pool.new ≡ (normalized table.now pool.now (length out_table.old) (length out_pool.old)).pool }
{
    let limit = outputs::row_limit(out_table.len());
    let mut work = [0; normal_form::WORK];
    let sizes = Sizes {
        rows: rows::row_count(table),
        bytes: pool.len(),
        names,
        free: 1,
        limit,
    };
    let made = normal_form::normalize_into(
        table, pool, out_table, &mut work, notes, path, tops, sizes,
    );
    finishing::finish(out_table, out_pool, &work, made.rows, made.bytes, limit)
}
