// Exact numbers: rounding, cutting and flooring of fractions by signed divisions, and the two constant tables of document 01.
#![tactic(auto)]

ghost use Rattle.std.specs.Prelude.{◌≡◌, ◌≤◌, ◌<◌, ◌^◌, nat_abs};
ghost use Rattle.exact.specs.Sign.{within};
ghost use Rattle.exact.specs.Exact.{Divisor, Fraction, nearest, to_step, cut, floor};
ghost use Rattle.exact.specs.Tables.{steps, among};

// The nearest whole number to n / d, halves away from zero.
pub fn nearest(n: i64, d: i64) -> i64
    requires { Fraction n d }
    ensures { result ≡ nearest n (nat_abs d) }
{
    if n < 0 {
        (2 * n - d) / (2 * d)
    } else {
        (2 * n + d) / (2 * d)
    }
}

// The nearest multiple of a step to v, halves away from zero.
pub fn to_step(v: i64, step: i64) -> i64
    requires { Fraction v step }
    ensures { result ≡ to_step v (nat_abs step) }
{
    nearest(v, step) * step
}

// n / d cut towards zero: what a signed division is.
pub fn cut(n: i64, d: i64) -> i64
    requires { Divisor d }
    ensures { result ≡ cut n (nat_abs d) }
{
    n / d
}

// The greatest whole number that is not above n / d.
#[tactic(auto, using(crate::proofs::Quotients::floor_euclid))]
pub fn floor(n: i64, d: i64) -> i64
    requires { Divisor d }
    ensures { result ≡ floor n (nat_abs d) }
{
    n.div_euclid(d)
}

// Whether lo <= z <= hi.
pub fn is_within(z: i32, lo: i32, hi: i32) -> bool
    ensures { result ≡ within lo hi z }
{
    (lo..=hi).contains(&z)
}

// Whether n stands in a table.
pub fn among(n: i32, table: &[i32]) -> bool
    ensures { result ≡ among n table.now }
{
    table.contains(&n)
}

// The rounding steps.
const STEPS: [i32; 7] = [1, 2, 5, 10, 20, 50, 100];

// Whether n is a rounding step.
pub fn is_step(n: i32) -> bool
    ensures { result ≡ among n steps }
{
    among(n, &STEPS)
}

// A power of ten for each number of decimal places.
const POWERS: [u32; 5] = [1, 10, 100, 1000, 10000];

// Ten to the power of a number of decimal places.
pub fn power_of_ten(places: usize) -> u32
    requires { places ≤ 4 }
    ensures { result ≡ 10 ^ places }
{
    POWERS[places]
}
