// The check. A line gives the case's name and nothing more.
use crate::parts::part;
use crate::texts;
use refusal_numbers::Number;
use std::io;

pub fn case(rt: &impl Print, line: &[u8], table: &[u32], pool: &[u8]) -> io::Result<()> {
    rt.write_all(part(line, 1))?;
    let given = Number::from(checker::check(table, pool));
    texts::refusal(rt, texts::REFUSAL, texts::ROW, texts::WORD, given)?;
    texts::write(rt, texts::LINE)
}
