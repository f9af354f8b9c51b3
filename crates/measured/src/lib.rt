// What is measured: the reading, and the total, max and min that are made of it.
#![tactic(auto)]

ghost use Rattle.std.specs.Prelude.{◌≡◌, true};
ghost use Rattle.total.specs.Total.{Timed, in_range};
ghost use Rattle.measured.specs.Measured.{powered_up, sampled, reset_total, reset_max, reset_min, batched, sound};

use config::Working;
use extremes::{Extreme, Side};
use reading::Reading;
use total::Total;

#[derive(Clone, Copy)]
pub struct Measured {
    pub reading: Reading,
    pub total: Total,
    pub max: Extreme,
    pub min: Extreme,
}

// Nothing is measured at power-up.
pub fn powered_up() -> Measured
    ensures { result ≡ powered_up }
{
    let reading = Reading::Nothing;
    Measured {
        reading,
        total: total::reset(),
        max: extremes::reset(reading),
        min: extremes::reset(reading),
    }
}

// A sample whose reading is known: total, then max and min.
pub fn sampled(working: Working, m: Measured, reading: Reading) -> Measured
    requires timed { Timed working.totalizer }
    requires ranged { in_range working.totalizer m.total ≡ true }
    ensures { result ≡ sampled working m reading }
{
    Measured {
        reading,
        total: total::sampled(working.totalizer, m.total, reading),
        max: extremes::sampled(Side::Max, working.capture, m.max, reading),
        min: extremes::sampled(Side::Min, working.capture, m.min, reading),
    }
}

// Sum and total become 0.
pub fn reset_total(m: Measured) -> Measured
    ensures { result ≡ reset_total m }
{
    Measured {
        total: total::reset(),
        ..m
    }
}

// Max takes the present reading if it is a number, else none.
pub fn reset_max(m: Measured) -> Measured
    ensures { result ≡ reset_max m }
{
    Measured {
        max: extremes::reset(m.reading),
        ..m
    }
}

// Min likewise.
pub fn reset_min(m: Measured) -> Measured
    ensures { result ≡ reset_min m }
{
    Measured {
        min: extremes::reset(m.reading),
        ..m
    }
}

// Key 1 in a meter set for batch.
pub fn batched(working: Working, m: Measured) -> Measured
    requires timed { Timed working.totalizer }
    requires ranged { in_range working.totalizer m.total ≡ true }
    ensures { result ≡ batched working m }
{
    Measured {
        total: total::batched(working.totalizer, m.total, m.reading),
        ..m
    }
}

// Whether all of it can be shown and counted on. Every event of a meter is judged by it, so no test ends it early.
#[tactic(auto, unfolding(crate::specs::Measured::sound))]
pub fn is_sound(working: Working, m: Measured) -> bool
    requires { Timed working.totalizer }
    ensures { result ≡ sound working m }
{
    reading::is_displayable(m.reading)
        & extremes::is_sound(m.max)
        & extremes::is_sound(m.min)
        & total::is_in_range(working.totalizer, m.total)
}
