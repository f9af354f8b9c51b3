// Max and min: the largest and the smallest number read, each with the run of samples that lie beyond it. A completed run gives the
// reading of it that is nearest to what was kept, so that one spike among other readings is never taken.
#![tactic(auto)]

ghost use Rattle.std.specs.Prelude.{◌≡◌};
ghost use Rattle.extremes.specs.Extremes.{taken, beyond, nearer, so_many, closest, moved, compared, sampled, reset, shown, remembered, sound};

use reading::Reading;
use run::Run;

// Max and min are one thing seen from two sides.
#[derive(Clone, Copy)]
pub enum Side {
    Max,
    Min,
}

// A run of successive samples beyond what is kept: so many readings, and of them the one nearest to what is kept, the least of a max's
// run, the greatest of a min's.
#[derive(Clone, Copy)]
pub struct Streak {
    pub readings: u32,
    pub nearest: i32,
}

// A max or a min, which is none after power-up and after a reset with no number to take, and its run, if one goes on.
#[derive(Clone, Copy)]
pub struct Extreme {
    pub kept: Option<i32>,
    pub run: Option<Streak>,
}

// A number is taken: it is kept, and no run goes on.
fn taken(number: i32) -> Extreme
    ensures { result ≡ taken number }
{
    let kept = Some(number);
    Extreme { kept, run: None }
}

// Whether a number lies beyond the kept one: above a max, below a min.
#[tactic(auto, unfolding(crate::specs::Extremes::beyond))]
fn beyond(side: Side, number: i32, kept: i32) -> bool
    ensures { result ≡ beyond side number kept }
{
    match side {
        Side::Max => number > kept,
        Side::Min => number < kept,
    }
}

// Of two numbers beyond the kept one, the one nearer to it.
fn nearer(side: Side, number: i32, other: i32) -> i32
    ensures { result ≡ nearer side number other }
{
    if beyond(side, number, other) {
        other
    } else {
        number
    }
}

// How many readings a run has.
fn so_many(run: Option<Streak>) -> u32
    ensures { result ≡ so_many run }
{
    run.map_or(0, |s| s.readings)
}

// Of a run's readings and one more, the nearest to the kept number.
fn closest(side: Side, run: Option<Streak>, number: i32) -> i32
    ensures { result ≡ closest side run number }
{
    run.map_or(number, |s| nearer(side, s.nearest, number))
}

// What a sample leaves once it is counted, with the closest number of the run that it lengthens.
#[tactic(auto, unfolding(crate::specs::Extremes::moved))]
fn moved(e: Extreme, nearest: i32, run: Run) -> Extreme
    ensures { result ≡ moved e nearest run }
{
    match run {
        Run::Broken => Extreme { run: None, ..e },
        Run::Going(readings) => Extreme {
            run: Some(Streak { readings, nearest }),
            ..e
        },
        Run::Complete => taken(nearest),
    }
}

// A sample with a number.
#[tactic(auto, unfolding(crate::specs::Extremes::compared))]
fn compared(side: Side, capture: i32, e: Extreme, number: i32) -> Extreme
    ensures { result ≡ compared side capture e number }
{
    let Some(kept) = e.kept else {
        return taken(number);
    };
    let run = run::counted(
        so_many(e.run),
        beyond(side, number, kept),
        run::samples(capture),
    );
    moved(e, closest(side, e.run, number), run)
}

// One sample: the first number is taken at once, later ones by a run; Over, Under and nothing end the run.
#[tactic(auto, unfolding(crate::specs::Extremes::sampled))]
pub fn sampled(side: Side, capture: i32, e: Extreme, reading: Reading) -> Extreme
    ensures { result ≡ sampled side capture e reading }
{
    match reading {
        Reading::Number(v) => compared(side, capture, e, v),
        Reading::Nothing | Reading::Under | Reading::Over => Extreme { run: None, ..e },
    }
}

// A reset takes the present reading if it is a number, else none, and clears the run.
#[tactic(auto, unfolding(crate::specs::Extremes::reset))]
pub fn reset(reading: Reading) -> Extreme
    ensures { result ≡ reset reading }
{
    match reading {
        Reading::Number(v) => taken(v),
        Reading::Nothing | Reading::Under | Reading::Over => Extreme {
            kept: None,
            run: None,
        },
    }
}

// What is shown: the number, or none.
#[tactic(auto, unfolding(crate::specs::Extremes::shown))]
pub fn shown(e: Extreme) -> Reading
    ensures { result ≡ shown e }
{
    e.kept.map_or(Reading::Nothing, Reading::Number)
}

// What the run remembers: a number while it goes on, else none.
fn remembered(run: Option<Streak>) -> Reading
    ensures { result ≡ remembered run }
{
    run.map_or(Reading::Nothing, |s| Reading::Number(s.nearest))
}

// Whether what is kept and what the run remembers can be displayed: a completed run makes the second the first. Every event of a meter is
// judged by it, so no test ends it early.
pub fn is_sound(e: Extreme) -> bool
    ensures { result ≡ sound e }
{
    reading::is_displayable(shown(e)) & reading::is_displayable(remembered(e.run))
}
