// From an input to a reading.
#![tactic(auto)]

ghost use Rattle.std.specs.Prelude.{◌≡◌, ◌&&◌, ◌≤◌, ◌<◌};
ghost use Rattle.reading.specs.Reading.{in_input, in_display, judged, displayable, up_to, point_in, rises_at, points_in};

// A reading: nothing before the first sample, a number, or beyond the display range.
#[derive(Clone, Copy)]
pub enum Reading {
    Nothing,
    Under,
    Number(i32),
    Over,
}

// What a result reads: a number where the display range holds it.
pub fn judged(v: i64) -> Reading
    ensures { result ≡ judged v }
{
    if v > 99999 {
        return Reading::Over;
    }
    if v < -19999 {
        return Reading::Under;
    }
    Reading::Number(v as i32)
}

// Whether a number lies in the display range.
pub fn in_display(z: i32) -> bool
    ensures { result ≡ in_display z }
{
    (-19999..=99999).contains(&z)
}

// Whether a reading can be displayed.
#[tactic(auto, unfolding(crate::specs::Reading::displayable))]
pub fn is_displayable(reading: Reading) -> bool
    ensures { result ≡ displayable reading }
{
    match reading {
        Reading::Nothing | Reading::Under | Reading::Over => true,
        Reading::Number(v) => in_display(v),
    }
}

// Whether an input and a display lie in their ranges.
fn point_in(input: i32, display: i32) -> bool
    ensures { result ≡ in_input input && in_display display }
{
    (-99999..=99999).contains(&input) && in_display(display)
}

// Whether the first count points all lie in their ranges. A test that fails does not end the walk, so the compiler takes several points
// at a time: for 16 points that is 220 instructions less than `all` over the two slices, and 25 less than a loop over their `zip`.
#[tactic(auto, using(crate::proofs::Walk::walk_next), unfolding(crate::specs::Reading::up_to))]
fn every_point_in(inputs: &[i32; 16], displays: &[i32; 16], count: usize) -> bool
    requires { count ≤ 16 }
    ensures { result ≡ up_to (point_in inputs.now displays.now) count }
{
    let mut all = true;
    for i in 0..count {
        all &= point_in(inputs[i], displays[i]);
    }
    all
}

// Whether each of the first so many inputs is below the next, by the same kind of walk.
#[tactic(auto, using(crate::proofs::Walk::walk_next), unfolding(crate::specs::Reading::up_to))]
fn rises(inputs: &[i32; 16], steps: usize) -> bool
    requires { steps < 16 }
    ensures { result ≡ up_to (rises_at inputs.now) steps }
{
    let mut all = true;
    for i in 0..steps {
        all &= inputs[i] < inputs[i + 1];
    }
    all
}

// Rule 5 of a configuration, of the points in use.
#[tactic(auto, unfolding(crate::specs::Reading::points_in))]
pub fn points_in(inputs: &[i32; 16], displays: &[i32; 16], count: usize) -> bool
    requires { (2 ≤ count) × (count ≤ 16) }
    ensures { result ≡ points_in inputs.now displays.now count }
{
    every_point_in(inputs, displays, count) && rises(inputs, count - 1)
}
