// The tables of a pool are made.
#![tactic(auto)]

ghost use Rattle.std.specs.Prelude.{◌≡◌, ◌≤◌, true, false, length, get_or, drop};
ghost use Rattle.marks.specs.Marks.{MOST, Marked};
ghost use Rattle.ends.specs.Ends.{Ended};
ghost use Rattle.sum_tables.specs.SumTables.{Filled};
ghost use Rattle.tables.specs.Tables.{MADE, SUMS, PLAIN, COLONS, MARKS, WORDS, Made, begun};

use keyed::Pair;
use tables::{COLONS, MADE, MARKS, ONE, PLAIN, SUMS, TWO};

// Makes the tables of a pool, for hashes by these bases.
pub fn make(tables: &mut [u16], pool: &[u8], bases: Pair)
    requires { (WORDS ≤ length tables.old) × (length pool.now ≤ MOST) }
    ensures made { Made tables.new pool.now }
    ensures tables_after { get_or tables.new MADE 0 ≡ 1 }
{
    fill_marks(tables, pool);
    fill_colons(tables, pool);
    fill_plain(tables, pool);
    fill_sums(tables, pool, bases);
    begin(tables, bases);
}

// The parts are filled from the last to the first, so that each leaves those behind it as they are.
fn fill_marks(tables: &mut [u16], pool: &[u8])
    requires { (WORDS ≤ length tables.old) × (length pool.now ≤ MOST) }
    ensures { Marked pool.now (drop MARKS tables.new) }
{
    marks::make(&mut tables[MARKS..tables::WORDS], pool);
}

fn fill_colons(tables: &mut [u16], pool: &[u8])
    requires { (WORDS ≤ length tables.old) × (length pool.now ≤ MOST) }
    ensures ended { Ended true pool.now (drop COLONS tables.new) }
    ensures tables_unchanged { drop MARKS tables.new ≡ drop MARKS tables.old }
{
    ends::make(&mut tables[COLONS..MARKS], pool, true);
}

fn fill_plain(tables: &mut [u16], pool: &[u8])
    requires { (WORDS ≤ length tables.old) × (length pool.now ≤ MOST) }
    ensures ended { Ended false pool.now (drop PLAIN tables.new) }
    ensures tables_unchanged { drop COLONS tables.new ≡ drop COLONS tables.old }
{
    ends::make(&mut tables[PLAIN..COLONS], pool, false);
}

fn fill_sums(tables: &mut [u16], pool: &[u8], bases: Pair)
    requires { (WORDS ≤ length tables.old) × (length pool.now ≤ MOST) }
    ensures filled { Filled pool.now bases.one bases.two (drop SUMS tables.new) }
    ensures tables_unchanged { drop PLAIN tables.new ≡ drop PLAIN tables.old }
{
    sum_tables::make(&mut tables[SUMS..PLAIN], pool, bases);
}

// Writes the bases, and that all is made.
fn begin(tables: &mut [u16], bases: Pair)
    requires { WORDS ≤ length tables.old }
    ensures { tables.new ≡ begun tables.old bases.one bases.two }
{
    tables[MADE] = 1;
    tables[ONE] = (bases.one % 65536) as u16;
    tables[ONE + 1] = (bases.one / 65536) as u16;
    tables[TWO] = (bases.two % 65536) as u16;
    tables[TWO + 1] = (bases.two / 65536) as u16;
}
