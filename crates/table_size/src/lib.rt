// The size of a table and of its pool: refusal 1, and which tables are small, so that their operations take small arrays.
#![tactic(auto)]

ghost use Rattle.std.specs.Prelude.{◌≡◌, false, ◌≤◌};
ghost use Rattle.rules.specs.Table.{row_count};
ghost use Rattle.rules.specs.Refusals.{bad_size};
ghost use Rattle.table_size.specs.Small.{FEW_ROWS};

// The rows of a small table and the bytes of a short pool.
pub const FEW_ROWS: usize = 64;

pub const FEW_BYTES: usize = 4096;

// The words are not whole rows, or rows or bytes are too many.
pub fn is_bad(table: &[u32], pool: &[u8]) -> bool
    ensures { result ≡ bad_size table.now pool.now }
{
    (table.len() % rules::WIDTH != 0)
        | (table.len() > rules::WIDTH * rules::MOST_ROWS)
        | (pool.len() > rules::MOST_BYTES)
}

// The table has more rows than a small one.
pub fn has_many_rows(table: &[u32]) -> bool
    ensures { result ≡ false → row_count table.now ≤ FEW_ROWS }
{
    rows::row_count(table) > FEW_ROWS
}
