// Many inputs read at once by a scale, with no meter: what rescaling of records asks for.
#![tactic(auto)]

ghost use Rattle.std.specs.Prelude.{◌≡◌};
ghost use Rattle.bulk.specs.Bulk.{number_of, answered, left};

use answer::Answer;
use reading::Reading;
use segments::Segments;

// The number that stands for a reading where every reading is a number: one past the display range for Over and for Under. No sample
// reads Nothing; 0 stands for it.
fn number_of(reading: Reading) -> i32
    ensures { result ≡ number_of reading }
{
    match reading {
        Reading::Nothing => 0,
        Reading::Under => -20000,
        Reading::Number(v) => v,
        Reading::Over => 100000,
    }
}

// Reads inputs into readings, one after another, as many as the shorter slice has. A scale that fails its test is answered 12, and
// nothing is written.
pub fn read_all(s: Segments, inputs: &[i32], readings: &mut [i32]) -> Answer
    ensures value { result ≡ answered s }
    ensures readings_after { readings.new ≡ left s inputs.now readings.old }
{
    if !scaling::can_scale(&s) {
        return Answer::NotStarted;
    }
    // By place, since of what is written through `iter_mut` no more than the length is known afterwards.
    for i in 0..inputs.len().min(readings.len()) {
        readings[i] = number_of(scaling::read(&s, inputs[i]));
    }
    Answer::Done
}
