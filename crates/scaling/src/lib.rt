// The segments of a scale, made once of the points of an accepted configuration, and an input read by its segment alone, or by the table
// of a platinum sensor where that is the source.
#![tactic(auto)]

ghost use Rattle.std.specs.Prelude.{◌≡◌, false, ℕ, ◌≤◌, ◌<◌, ℤ, pos, nat_abs};
ghost use Rattle.exact.specs.Sign.{is_neg};
ghost use Rattle.reading.specs.Reading.{first_from, Scalable};
ghost use Rattle.config.specs.Accepted.{Measurable};
ghost use Rattle.segments.specs.Segments.{held, of_points, unused, no_segments, segments_of, along, read_on, read, segment_in, segments_in, can_scale, Line, Readable};

use config::{Scale, Source};
use reading::Reading;
use segments::Segments;

// No segment in use.
fn unused(source: Source, step: i32) -> Segments
    ensures { result ≡ unused source step }
{
    Segments {
        source,
        step,
        last: 0,
        inputs: [0; 15],
        displays: [0; 15],
        rises: [0; 15],
        runs: [1; 15],
    }
}

// And no step to round to: nothing can be read by it.
pub fn none() -> Segments
    ensures { result ≡ no_segments }
{
    unused(Source::Points, 0)
}

// A number for each segment in use, and one fixed number at every other place.
fn held<F: Fn(usize) -> i32>(used: usize, unused: i32, number: F) -> [i32; 15]
    requires used_bound { used ≤ 15 }
    requires callable { (k : ℕ) → k < used → F.pre number k }
    ensures { (f : ℕ → ℤ) → ((k : ℕ) (z : ℤ) → k < used → F.post number k z → z ≡ f k) → result ≡ held used unused f }
{
    // No `array::from_fn`, whose closure would ask that `number` may be called at any place.
    let mut list = [unused; 15];
    for k in 0..used {
        list[k] = number(k);
    }
    list
}

// The segments of a configuration's points: segment k starts at point k and leads to point k + 1.
fn of_points(s: &Scale) -> Segments
    requires count_value { is_neg s.now.count ≡ false }
    requires scalable { Scalable s.now.inputs s.now.displays (nat_abs s.now.count) s.now.step }
    ensures { result ≡ of_points s.now }
{
    let used = s.count as usize - 1;
    Segments {
        source: Source::Points,
        step: s.step,
        last: (used - 1) as u8,
        inputs: held(used, 0, |k| s.inputs[k]),
        displays: held(used, 0, |k| s.displays[k]),
        rises: held(used, 0, |k| s.displays[k + 1] - s.displays[k]),
        runs: held(used, 1, |k| s.inputs[k + 1] - s.inputs[k]),
    }
}

// What a meter holds of a configuration's scale. Of a platinum sensor that is its step, and nothing of the points.
pub fn made(s: Scale) -> Segments
    requires { Measurable s }
    ensures { result ≡ segments_of s }
{
    match s.source {
        Source::Points => of_points(&s),
        Source::Platinum => unused(Source::Platinum, s.step),
    }
}

// The first segment whose right end, where the next one starts, is not below the input, the last one where none is. Document 01 names the
// form: a loop that yields the place by `break`.
fn segment(inputs: &[i32; 15], last: usize, input: i32) -> usize
    requires { last < 15 }
    ensures { result ≡ first_from inputs.now input 0 last }
{
    let mut i = 0;
    loop {
        if last <= i {
            break last;
        }
        if input <= inputs[i + 1] {
            break i;
        }
        i += 1;
    }
}

// The line from a start with a rise over a run at x, as one exact fraction rounded to the nearest whole number.
fn along(input: i32, display: i32, rise: i32, run: i32, x: i32) -> i64
    requires { Line rise run x }
    ensures { result ≡ along input display rise run x }
{
    let over = run as i64;
    exact::nearest(
        display as i64 * over + (x as i64 - input as i64) * (rise as i64),
        over,
    )
}

// The reading of an input by the segments up to the last.
fn on_segments(s: &Segments, input: i32) -> Reading
    requires { Readable s.now.rises s.now.runs s.now.last s.now.step }
    ensures { result ≡ read_on s.now.inputs s.now.displays s.now.rises s.now.runs s.now.last s.now.step input }
{
    if input > 99999 {
        return Reading::Over;
    }
    if input < -99999 {
        return Reading::Under;
    }
    let k = segment(&s.inputs, s.last as usize, input);
    let whole = along(s.inputs[k], s.displays[k], s.rises[k], s.runs[k], input);
    reading::judged(exact::to_step(whole, s.step as i64))
}

// The reading of an input by its source: the one function that knows both.
pub fn read(s: &Segments, input: i32) -> Reading
    requires { Readable s.now.rises s.now.runs s.now.last s.now.step }
    ensures { result ≡ read s.now input }
{
    match s.source {
        Source::Points => on_segments(s, input),
        Source::Platinum => sensing::read(s.step, input),
    }
}

// Whether a rise and a run are such as two points of an accepted configuration have.
fn segment_in(rise: i32, run: i32) -> bool
    ensures { result ≡ segment_in rise run }
{
    exact::is_within(run, 1, 199998) & exact::is_within(rise, -199998, 199998)
}

// Whether all are, in use or not. There are always 15 and no test ends the walk, so the compiler takes several at a time.
fn segments_in(rises: &[i32; 15], runs: &[i32; 15]) -> bool
    ensures { result ≡ segments_in rises.now runs.now }
{
    let mut all = true;
    for k in 0..15 {
        all &= segment_in(rises[k], runs[k]);
    }
    all
}

// Whether an input can be read by these segments. Every event of a meter asks it, so no test decides a jump.
pub fn can_scale(s: &Segments) -> bool
    ensures { result ≡ can_scale s.now }
{
    exact::is_within(s.step, 1, 100) & (s.last < 15) & segments_in(&s.rises, &s.runs)
}
