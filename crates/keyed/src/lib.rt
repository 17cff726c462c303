// Hashes of byte strings by two polynomials over a prime, at two bases, the key. Where the polynomials of the bytes up
// to two places are known, that of the bytes between follows.
#![tactic(auto)]

ghost use Rattle.std.specs.Prelude.{◌≡◌, ◌+◌, ◌-◌, ◌%◌, ◌≤◌, ◌<◌};
ghost use Rattle.keyed.specs.Keyed.{PRIME, pushed, sum_from, raised_from};

const PRIME: u64 = 4294967087;

// Two polynomials, two bases or two powers.
#[derive(Clone, Copy)]
pub struct Pair {
    pub one: u32,
    pub two: u32,
}

// The polynomials of bytes, behind what stands before: two bytes a step.
pub fn summed(bytes: &[u8], bases: Pair, from: Pair) -> Pair
    requires { (from.one < PRIME) × (from.two < PRIME) }
    ensures one_value { result.one ≡ sum_from bases.one from.one bytes.now }
    ensures two_value { result.two ≡ sum_from bases.two from.two bytes.now }
{
    let base1 = bases.one;
    let base2 = bases.two;
    let square1 = push(base1, base1, 0);
    let square2 = push(base2, base2, 0);
    let mut one = from.one;
    let mut two = from.two;
    let (pairs, rest) = bytes.as_chunks::<2>();
    for pair in pairs {
        let first = wide(pair[0]) + 1;
        let second = wide(pair[1]) + 1;
        one = push_two(base1, square1, one, first, second);
        two = push_two(base2, square2, two, first, second);
    }
    if let Some(byte) = rest.first() {
        let last = wide(*byte) + 1;
        return Pair {
            one: push(base1, one, last),
            two: push(base2, two, last),
        };
    }
    Pair { one, two }
}

// A power of a base, by squares.
pub fn power(base: u32, n: usize) -> u32
    ensures { result ≡ raised_from base 1 n }
{
    let mut square = base;
    let mut done: u32 = 1;
    let mut left = n;
    // Halved each time, so no range gives what is left.
    while left > 0 {
        done = once(square, done, left);
        square = push(square, square, 0);
        left = left / 2;
    }
    done
}

// Times the base, if n is odd.
fn once(base: u32, h: u32, n: usize) -> u32
    ensures { (result ≡ raised_from base h (n % 2)) × (result < 4294967296) }
{
    if n % 2 == 0 {
        return h;
    }
    push(base, h, 0)
}

// The polynomial of bytes from that up to their end, that of what stands before them, and the power of their number.
pub fn taken_off(whole: u32, before: u32, power: u32) -> u32
    requires { whole < PRIME }
    ensures { result ≡ (whole + PRIME - pushed power before 0) % PRIME }
{
    ((whole as u64 + PRIME - push(power, before, 0) as u64) % PRIME) as u32
}

// One step of a polynomial.
fn push(base: u32, h: u32, term: u32) -> u32
    ensures value { result ≡ pushed base h term }
    ensures upper_bound { result < PRIME }
{
    ((h as u64 * base as u64 + term as u64) % PRIME) as u32
}

// Two steps of a polynomial, by the square of the base.
fn push_two(base: u32, square: u32, h: u32, first: u32, second: u32) -> u32
    requires h_bound { (h < PRIME) × (square ≡ pushed base base 0) }
    requires first_bound { (first ≤ 256) × (second ≤ 256) }
    ensures value { result ≡ pushed base (pushed base h first) second }
    ensures upper_bound { result < PRIME }
{
    ((h as u64 * square as u64 + first as u64 * base as u64 + second as u64) % PRIME) as u32
}

// A byte as a number.
fn wide(x: u8) -> u32
    ensures { (result ≡ x) × (result < 256) }
{
    x as u32
}
