// Where the pool repeats itself. Of one stretch of it the index knows the step: places there that are a multiple of it apart have the
// same bytes, so that the first of them stands for all, and equal values at many places are not compared over and over. Which
// stretch it is, nothing but time depends on.
#![tactic(auto)]

ghost use Rattle.std.specs.Prelude.{◌≡◌, true, ℕ, ◌+◌, ◌-◌, ◌≤◌, ◌<◌, length, get_or};
ghost use Rattle.rules.specs.Table.{MOST_BYTES};
ghost use Rattle.packed_index.specs.Index.{ENTRIES, Repeats};
ghost use Rattle.repeats.specs.Stretch.{Holds, First, Learned};

use packed_index::{SIZE, START, STEP};
use rules::{Offset, Place};

// So many places of long values are remembered beside the others, those seen last.
pub const RECENT: usize = 32;

// A part of the pool, and the step at which it may repeat itself; 0 where none is known.
#[derive(Clone, Copy)]
struct Reach {
    start: usize,
    end: usize,
    step: usize,
}

// The place lies in the stretch.
pub fn holds(index: &[u16], place: Place) -> bool
    requires { (ENTRIES ≤ length index.now) × (place.offset.0 < 65536) × (place.length < 65536) }
    ensures { result ≡ true → Holds index.now place.offset.0 place.length }
{
    let start = wide(index[START]);
    let step = wide(index[STEP]);
    let end = start + step + wide(index[SIZE]);
    (step > 0) & (start <= place.offset.0) & (place.offset.0 + place.length <= end)
}

// The first place in the stretch with the same bytes.
pub fn first_place(index: &[u16], place: Place) -> Place
    requires { (ENTRIES ≤ length index.now) × Holds index.now place.offset.0 place.length }
    ensures { First index.now place.offset.0 place.length result.offset.0 result.length }
{
    let start = wide(index[START]);
    let step = wide(index[STEP]);
    Place {
        offset: Offset(start + (place.offset.0 - start) % step),
        length: place.length,
    }
}

// Learns how the pool repeats itself from a place of this mark and those seen last: if more bytes stand once more than are known to.
pub fn learn(index: &mut [u16], pool: &[u8], place: Place, mark: u16)
    requires { (ENTRIES ≤ length index.old) × (place.offset.0 < 65536) × (place.length < 65536) × (length pool.now ≤ MOST_BYTES) }
    ensures { Learned pool.now index.old index.new }
{
    let guess = guess(index, place, mark);
    let size = size_of(guess, place);
    if size <= wide(index[SIZE]) as usize {
        return;
    }
    if !is_repeated(pool, guess.start, size, guess.step) {
        return;
    }
    let more = grown(pool, guess.start, size, guess.step);
    let start = grown_back(pool, guess.start, more, guess.step);
    index[START] = start as u16;
    index[SIZE] = (more + (guess.start - start)) as u16;
    index[STEP] = guess.step as u16;
}

// A stretch that may repeat itself: what is known of where the place lies, and those of its mark seen last.
fn guess(index: &[u16], place: Place, mark: u16) -> Reach
    requires { (ENTRIES ≤ length index.now) × (place.offset.0 < 65536) × (place.length < 65536) }
{
    let known = known(index, place);
    let own = place.offset.0 as usize;
    let length = place.length as usize;
    let mut start = known.start;
    let mut end = known.end;
    let mut step = known.step;
    for k in 0..RECENT {
        if packed_index::seen(index, k, 2) == mark {
            let other = wide(packed_index::seen(index, k, 0)) as usize;
            start = least(start, other);
            end = most(end, other + length);
            step = divisor(step, most(own, other) - least(own, other));
        }
    }
    Reach { start, end, step }
}

// The stretch, where the place lies in it; else the place alone.
fn known(index: &[u16], place: Place) -> Reach
    requires { (ENTRIES ≤ length index.now) × (place.offset.0 < 65536) × (place.length < 65536) }
{
    if holds(index, place) {
        let start = wide(index[START]) as usize;
        let step = wide(index[STEP]) as usize;
        return Reach {
            start,
            end: start + step + wide(index[SIZE]) as usize,
            step,
        };
    }
    let start = place.offset.0 as usize;
    Reach {
        start,
        end: start + place.length as usize,
        step: 0,
    }
}

// How many bytes stand once more if the guess is right; 0 where nothing is guessed, and where it is far longer than the value that
// it is made of: comparing it would cost more than the value does.
fn size_of(guess: Reach, place: Place) -> usize {
    if guess.step == 0 {
        return 0;
    }
    if guess.end <= guess.start {
        return 0;
    }
    let whole = guess.end - guess.start;
    if whole <= guess.step {
        return 0;
    }
    let size = whole - guess.step;
    if size / 2 > place.length as usize {
        return 0;
    }
    size
}

fn wide(x: u16) -> u32
    ensures { (result ≡ x) × (result < 65536) }
{
    x as u32
}

fn least(a: usize, b: usize) -> usize
    ensures { (result ≤ a) × (result ≤ b) }
{
    if a < b {
        return a;
    }
    b
}

fn most(a: usize, b: usize) -> usize
    ensures { (a ≤ result) × (b ≤ result) }
{
    if a < b {
        return b;
    }
    a
}

// The greatest common divisor.
fn divisor(a: usize, b: usize) -> usize {
    let mut x = a;
    let mut y = b;
    while y > 0 {
        let rest = x % y;
        x = y;
        y = rest;
    }
    x
}

// So many bytes of the pool from a start on stand once more, a step further on.
fn is_repeated(pool: &[u8], start: usize, size: usize, step: usize) -> bool
    ensures { result ≡ true → (start + step + size ≤ length pool.now) × Repeats pool.now start size step }
{
    let end = pool.len();
    if start > end {
        return false;
    }
    if step > end - start {
        return false;
    }
    if size > end - start - step {
        return false;
    }
    let again = start + step;
    names::same(&pool[start..start + size], &pool[again..again + size])
}

// How many bytes from the start on stand once more, if so many do.
fn grown(pool: &[u8], start: usize, least: usize, step: usize) -> usize
    requires { (start + step + least ≤ length pool.now) × Repeats pool.now start least step }
    ensures { (start + step + result ≤ length pool.now) × Repeats pool.now start result step }
{
    least + common_length(&pool[start + least..], &pool[start + step + least..])
}

// How many bytes two parts have in common, from the start of both on.
fn common_length(part: &[u8], other: &[u8]) -> usize
    ensures within { (result ≤ length part.now) × (result ≤ length other.now) }
    ensures same { (i : ℕ) → i < result → get_or part.now i 0 ≡ get_or other.now i 0 }
{
    part.iter()
        .zip(other)
        .take_while(|(byte, again)| byte == again)
        .count()
}

// From where on the bytes up to the end of a stretch stand once more, if those of the stretch do.
fn grown_back(pool: &[u8], last: usize, size: usize, step: usize) -> usize
    requires { (last + step + size ≤ length pool.now) × Repeats pool.now last size step }
    ensures { (result ≤ last) × Repeats pool.now result (size + (last - result)) step }
{
    for start in (0..last).rev() {
        if pool[start] != pool[start + step] {
            return start + 1;
        }
    }
    0
}
