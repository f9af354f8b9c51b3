// The total: a sum that samples or batch keys add to, and the cut quotient of it that is shown.
//
// A time base to divide by (`Timed`) and a total in its range are asked in clauses, and no type holds them: the calls are promised for plain
// values, of which the one is a setting and the other is measured, and a type of both would ask more of whoever has them.
#![tactic(auto)]

ghost use Rattle.std.specs.Prelude.{◌≡◌, true, ◌^◌, ◌≤◌, pos, nat_abs};
ghost use Rattle.total.specs.Total.{Timed, unit_of, quotient, summed, added, counts, sample_adds, batch_adds, sampled, batched, reset, shown, in_range};

use reading::Reading;

// What the configuration says of the total: the scale factor in thousandths, the time base in seconds.
#[derive(Clone, Copy)]
pub struct Totalizer {
    pub batch: bool,
    pub low_cut: i32,
    pub factor: i32,
    pub time_base: i32,
}

// Where the total stands.
#[derive(Clone, Copy)]
pub enum Range {
    Within,
    Under,
    Over,
}

// The sum, and whether the total has left its range since the last reset.
#[derive(Clone, Copy)]
pub struct Total {
    pub sum: i64,
    pub range: Range,
}

// What one of the total is in the sum: 20,000 × time base.
#[tactic(auto, using(crate::proofs::Sums::unit_is, crate::proofs::Sums::unit_fits))]
fn unit_of(s: Totalizer) -> i64
    requires { Timed s }
    ensures { result ≡ pos (unit_of s) }
{
    20000 * i64::from(s.time_base)
}

// The total of a sum, cut towards zero.
#[tactic(auto, using(crate::proofs::Sums::unit_divides), unfolding(crate::specs::Total::quotient))]
fn quotient(s: Totalizer, sum: i64) -> i64
    requires { Timed s }
    ensures { result ≡ quotient s sum }
{
    exact::cut(sum, unit_of(s))
}

// The new sum where its total stays in range, the old one where it would leave.
#[tactic(auto, unfolding(crate::specs::Total::summed))]
fn summed(s: Totalizer, old: i64, new: i64) -> Total
    requires { Timed s }
    ensures { result ≡ summed s old new }
{
    let q = quotient(s, new);
    let (sum, range) = if 999999999 < q {
        (old, Range::Over)
    } else if q < -199999999 {
        (old, Range::Under)
    } else {
        (new, Range::Within)
    };
    Total { sum, range }
}

// x more on the sum, unless the total is Over or Under.
#[tactic(auto, using(crate::proofs::Sums::sum_fits), unfolding(crate::specs::Total::added))]
fn added(s: Totalizer, t: Total, x: i64) -> Total
    requires timed { Timed s }
    requires t_value { in_range s t ≡ true }
    requires x_bound { nat_abs x ≤ 2 ^ 62 }
    ensures { result ≡ added s t x }
{
    match t.range {
        Range::Within => summed(s, t.sum, t.sum + x),
        Range::Under | Range::Over => t,
    }
}

// Whether a sample with this number adds: outside batch, where it is not below the low cut.
fn counts(s: Totalizer, v: i32) -> bool
    ensures { result ≡ counts s v }
{
    !s.batch && s.low_cut <= v
}

// What a sample adds: reading × factor, of a number that counts.
#[tactic(auto, using(crate::proofs::Sums::product_fits), unfolding(crate::specs::Total::sample_adds))]
fn sample_adds(s: Totalizer, reading: Reading) -> i64
    ensures value { result ≡ sample_adds s reading }
    ensures small { nat_abs result ≤ 2 ^ 62 }
{
    match reading {
        Reading::Number(v) if counts(s, v) => i64::from(v) * i64::from(s.factor),
        Reading::Nothing | Reading::Under | Reading::Number(_) | Reading::Over => 0,
    }
}

// What key 1 adds in batch: the reading itself in units of the total, without factor or low cut.
#[tactic(auto, using(crate::proofs::Sums::batch_abs), unfolding(crate::specs::Total::batch_adds))]
fn batch_adds(s: Totalizer, reading: Reading) -> i64
    requires { Timed s }
    ensures value { result ≡ batch_adds s reading }
    ensures small { nat_abs result ≤ 2 ^ 62 }
{
    match reading {
        Reading::Number(v) => i64::from(v) * unit_of(s),
        Reading::Nothing | Reading::Under | Reading::Over => 0,
    }
}

// The total after a sample.
pub fn sampled(s: Totalizer, t: Total, reading: Reading) -> Total
    requires timed { Timed s }
    requires t_value { in_range s t ≡ true }
    ensures { result ≡ sampled s t reading }
{
    added(s, t, sample_adds(s, reading))
}

// The total after key 1 in a meter set for batch.
pub fn batched(s: Totalizer, t: Total, reading: Reading) -> Total
    requires timed { Timed s }
    requires t_value { in_range s t ≡ true }
    ensures { result ≡ batched s t reading }
{
    added(s, t, batch_adds(s, reading))
}

// The total at power-up and after a reset.
pub fn reset() -> Total
    ensures { result ≡ reset }
{
    Total {
        sum: 0,
        range: Range::Within,
    }
}

// The total that is shown.
#[tactic(auto, using(crate::proofs::Sums::kept_total), unfolding(crate::specs::Total::shown))]
pub fn shown(s: Totalizer, t: Total) -> Reading
    requires timed { Timed s }
    requires t_value { in_range s t ≡ true }
    ensures { result ≡ shown s t }
{
    match t.range {
        Range::Within => Reading::Number(quotient(s, t.sum) as i32),
        Range::Under => Reading::Under,
        Range::Over => Reading::Over,
    }
}

// Whether the total lies in its range: the sum is held against the limits times the unit, which spares a division. Every event of a meter
// asks it, so the first test decides no jump.
pub fn is_in_range(s: Totalizer, t: Total) -> bool
    requires { Timed s }
    ensures { result ≡ in_range s t }
{
    let unit = unit_of(s);
    (-200000000 * unit < t.sum) & (t.sum < 1000000000 * unit)
}
