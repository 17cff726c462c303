// Runs the cases of RULES 7.3, which are not proved of the definitions, and prints what each gave. The
// cases stand in the standard input, one to a line, with `|` between the parts of a line: the operation, two
// parts that it asks for, the table, written out, and the pool, whose bytes stand behind a `#` in
// hexadecimal. A line of one part is a title and is printed as it is. One of more parts that names no operation,
// or has a number above 4294967289, is not run, and the program says so.
#![tactic(auto)]

mod check_cases;
mod hexadecimal;
mod lookup_cases;
mod lookup_report;
mod normalize_cases;
mod normalize_report;
mod parts;
mod texts;
mod words;

use std::io::{self, Read};

const OPERATIONS: usize = 4;

const NORMALIZE: usize = 3;

// So many bytes of the standard input are read, and no more.
const MOST_INPUT: u64 = 65536;

fn main(rt: HostRuntime) -> io::Result<()> {
    let mut text = Vec::new(rt.alloc());
    rt.stdin().take(MOST_INPUT).read_to_end(&mut text)?;
    each_line(&rt, &text)
}

fn each_line(rt: &impl Print, text: &[u8]) -> io::Result<()> {
    for line in text.split_inclusive(|byte| *byte == b'\n') {
        case(rt, line.strip_suffix(b"\n").unwrap_or(line))?;
    }
    Ok(())
}

fn case(rt: &impl Print, line: &[u8]) -> io::Result<()> {
    let number = operation(parts::part(line, 0));
    if number == OPERATIONS {
        return other(rt, line);
    }
    if !has_numbers(line, number) {
        rt.write_all(line)?;
        return texts::write(rt, texts::TOO_LARGE);
    }
    read(rt, line)
}

// A title, or an operation that there is not.
fn other(rt: &impl Print, line: &[u8]) -> io::Result<()> {
    rt.write_all(line)?;
    let is_title = !line.contains(&b'|');
    texts::either(rt, is_title, texts::LINE, texts::NO_OPERATION)
}

// The numbers of a line can all be read: those of the room, which a normalization has, of the table, of the pool and of the
// rows that are asked.
fn has_numbers(line: &[u8], operation: usize) -> bool {
    if operation == NORMALIZE {
        if !words::are_numbers(parts::part(line, 2)) {
            return false;
        }
    }
    let table = words::are_numbers(parts::part(line, 3));
    table & parts::has_size(parts::part(line, 4)) & lookup_cases::has_rows(line)
}

fn read(rt: &impl Print, line: &[u8]) -> io::Result<()> {
    let mut words: [u32; words::MOST] = [0; words::MOST];
    let count = words::read(parts::part(line, 3), &mut words);
    with_table(rt, line, &words[..count])
}

fn with_table(rt: &impl Print, line: &[u8], table: &[u32]) -> io::Result<()> {
    let mut plenty: [u8; parts::MOST] = [b'a'; parts::MOST];
    let written = parts::part(line, 4);
    if !parts::is_hexadecimal(written) {
        return run(rt, line, table, parts::pool(written, &plenty));
    }
    let count = hexadecimal::read(parts::between(written, 1, written.len()), &mut plenty);
    run(rt, line, table, &plenty[..count])
}

fn run(rt: &impl Print, line: &[u8], table: &[u32], pool: &[u8]) -> io::Result<()> {
    match operation(parts::part(line, 0)) {
        0 => check_cases::case(rt, line, table, pool),
        1 => lookup_cases::case(rt, line, table, pool),
        2 => lookup_cases::part_case(rt, line, table, pool),
        _ => normalize_cases::case(rt, line, table, pool),
    }
}

// The number of an operation among these four; 4 for any other word.
fn operation(word: &[u8]) -> usize {
    b"check|lookups|parts|normalize"
        .split(|byte| *byte == b'|')
        .position(|name| name == word)
        .unwrap_or(OPERATIONS)
}
