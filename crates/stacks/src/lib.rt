// The arrays that hold a scope, and their words: for each number of a name, on top, the nearest position
// whose prefix has it, the nearest one whose value has it, and how many positions serve it; and for each
// position what lies under it. A position is a row counted from 1; 0 is no row.
#![tactic(auto)]

ghost use Rattle.std.specs.Prelude.{◌≡◌, ◌+◌, ◌*◌, ◌≤◌, ◌<◌, length, set};
ghost use Rattle.stacks.specs.Stacks.{TOPS, PATH, PREFIXES, COUNTS, NUMBERED, top_at, under_at};

use rules::{NameId, Position};

// How many words a number has in `tops`, and a position in `path`.
pub const TOPS: usize = 3;

pub const PATH: usize = 4;

// The words of a number in `tops`, and of a position in `path`. The first two are those of both.
pub const PREFIXES: usize = 0;

pub const VALUES: usize = 1;

pub const COUNTS: usize = 2;

pub const BELOW: usize = 2;

// The last word of a position is not the scope's. A caller notes there the number of the name that ends
// in k, or beside each position another one; and at 0 the number of xml.
const NUMBERED: usize = 3;

// The nearest position whose prefix has the number; 0 where there is none.
pub fn nearest(tops: &[u16], number: NameId) -> Position
    requires { TOPS * number.0 + TOPS ≤ length tops.now }
    ensures { result.0 ≡ top_at tops.now PREFIXES number.0 }
{
    top(tops, number, PREFIXES)
}

// The position on top of a number.
pub fn top(tops: &[u16], number: NameId, k: usize) -> Position
    requires { TOPS * number.0 + k < length tops.now }
    ensures { result.0 ≡ top_at tops.now k number.0 }
{
    Position(tops[TOPS * number.0 as usize + k])
}

// How many positions serve a number.
pub fn tally(tops: &[u16], number: NameId) -> u16
    requires { TOPS * number.0 + TOPS ≤ length tops.now }
    ensures { result ≡ top_at tops.now COUNTS number.0 }
{
    tops[TOPS * number.0 as usize + COUNTS]
}

// The position under a position.
pub fn under(path: &[u16], position: Position, k: usize) -> Position
    requires { PATH * position.0 + k < length path.now }
    ensures { result.0 ≡ under_at path.now k position.0 }
{
    Position(path[PATH * position.0 as usize + k])
}

// The number of the name that ends in k, as the caller has noted it; 0 where it has not.
pub fn numbered(path: &[u16], k: u16) -> NameId
    requires { PATH * k + PATH ≤ length path.now }
    ensures { result.0 ≡ under_at path.now NUMBERED k }
{
    NameId(path[PATH * k as usize + NUMBERED])
}

// Notes the number of the name that ends in k.
pub fn set_numbered(path: &mut [u16], k: u16, number: NameId)
    requires { PATH * k + PATH ≤ length path.old }
    ensures { path.new ≡ set path.old (PATH * k + NUMBERED) number.0 }
{
    path[PATH * k as usize + NUMBERED] = number.0;
}

// The number of xml, as the caller has noted it; 0 where it has not.
pub fn xml(path: &[u16]) -> NameId
    requires { PATH ≤ length path.now }
    ensures { result.0 ≡ under_at path.now NUMBERED 0 }
{
    NameId(path[NUMBERED])
}

// Notes the number of xml.
pub fn set_xml(path: &mut [u16], number: NameId)
    requires { PATH ≤ length path.old }
    ensures { path.new ≡ set path.old NUMBERED number.0 }
{
    path[NUMBERED] = number.0;
}

// The position that the caller has noted beside another one; 0 where it has not.
pub fn beside(path: &[u16], position: Position) -> Position
    requires { PATH * position.0 + PATH ≤ length path.now }
    ensures { result.0 ≡ under_at path.now NUMBERED position.0 }
{
    under(path, position, NUMBERED)
}

// Notes a position beside another one.
pub fn set_beside(path: &mut [u16], position: Position, noted: Position)
    requires { PATH * position.0 + PATH ≤ length path.old }
    ensures { path.new ≡ set path.old (PATH * position.0 + NUMBERED) noted.0 }
{
    path[PATH * position.0 as usize + NUMBERED] = noted.0;
}
