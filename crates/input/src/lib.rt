// The input of normalization: the refusals that it draws whatever its result, or the numbers of its names.
#![tactic(auto)]

ghost use Rattle.std.specs.Prelude.{◌≡◌, ℕ, ◌≤◌, ◌<◌, length, get_or, Ok, Err};
ghost use Rattle.std.proofs.Math.Option.{some};
ghost use Rattle.rules.specs.Table.{row_count};
ghost use Rattle.rules.specs.declared.Refusal.{Refusal};
ghost use Rattle.dictionary.specs.Dictionary.{last_of, Dictionary};
ghost use Rattle.checker.specs.Lent.{Lent as Numbering};
ghost use Rattle.stacks.specs.Stacks.{PATH as PATH_WORDS};
ghost use Rattle.input.specs.Input.{input_refusal};
ghost use Rattle.input.specs.Lent.{Blank, Entered, Prepared};

use rules::Refusal;

// The words of the notes and of the path that are lent for a small table and for any. A result has at most
// twice the rows of its table.
pub const SMALL_NOTES: usize = notes::NOTES * 2 * table_size::FEW_ROWS;

pub const SMALL_PATH: usize = stacks::PATH * 2 * table_size::FEW_ROWS + stacks::PATH;

pub const NOTES: usize = checker::NOTES;

pub const PATH: usize = stacks::PATH * rules::MOST_ROWS + stacks::PATH;

// The refusals that the input draws, the check's and then 9; or its names get their numbers, and how many have one is answered.
// The dictionary of the names is not needed any more after that.
pub fn judge(
    table: &[u32],
    pool: &[u8],
    dictionary: &mut [u16],
    notes: &mut [u16],
    path: &mut [u16],
) -> Result<u16, Refusal>
    requires blank { Blank (row_count table.now) notes.old path.old }
    requires numbering { Numbering table.now dictionary.old notes.old }
    ensures by_index { (names : ℕ) → result ≡ Ok names → Prepared table.now pool.now notes.new path.new names }
    ensures pool_value { (x : Refusal) → result ≡ Err x → input_refusal table.now pool.now ≡ some x }
{
    checker::check_numbered(table, pool, dictionary, notes)?;
    levels::level1(table)?;
    Ok(enter_names(dictionary, pool, path))
}

// Enters the numbers of the NS prefixes and of xml, the next one where it has none. Answers how
// many names have numbers then.
fn enter_names(dictionary: &[u16], pool: &[u8], path: &mut [u16]) -> u16
    requires dictionary { (Dictionary dictionary.now pool.now) × (last_of dictionary.now < 65535) }
    requires by_index { ((i : ℕ) → get_or path.old i 0 ≡ 0) × (PATH_WORDS ≤ length path.old) }
    ensures { Entered dictionary.now pool.now path.new result }
{
    ns_names::enter_all(dictionary, pool, path);
    let xml = asked_names::number_of_name(dictionary, pool, b"xml");
    stacks::set_xml(path, xml);
    let last = dictionary::last(dictionary);
    if last.0 < xml.0 {
        return xml.0;
    }
    last.0
}
