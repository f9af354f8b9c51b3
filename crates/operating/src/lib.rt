// What changes the instrument, and what is shown of it: samples, keys, V and R, and T and P.
#![tactic(auto)]

ghost use Rattle.std.specs.Prelude.{◌≡◌, true, false, ◌≤◌, ◌<◌};
ghost use Rattle.exact.specs.Sign.{eq_z};
ghost use Rattle.total.specs.Total.{Timed, in_range};
ghost use Rattle.register.specs.Registers.{at, count};
ghost use Rattle.config.specs.Config.{places_rule};
ghost use Rattle.instrument.specs.Instrument.{with_reset, powered_up, sampled, reset_register, reset_alarms, batched, shut, write_register, write_status, sound};
ghost use Rattle.instrument.specs.Shown.{shown_at, places_at};

use alarm::Alarm;
use config::{Places, Working};
use instrument::Instrument;
use outputs::Mode;
use reading::Reading;

// The instrument at power-up.
pub fn powered_up(setpoints: [i32; 4]) -> Instrument
    ensures { result ≡ powered_up setpoints }
{
    Instrument {
        measured: measured::powered_up(),
        alarms: alarms::powered_up(setpoints),
        outputs: outputs::powered_up(),
    }
}

// A sample whose reading is known: total, max and min, the alarms, and the analog code and the status by the alarms that it leaves on.
pub fn sampled(working: Working, i: Instrument, reading: Reading) -> Instrument
    requires timed { Timed working.totalizer }
    requires ranged { in_range working.totalizer i.measured.total ≡ true }
    requires differ { eq_z working.analog.low working.analog.high ≡ false }
    ensures { result ≡ sampled working i reading }
{
    let alarms = alarms::all_sampled(working.alarms, i.alarms, reading);
    Instrument {
        measured: measured::sampled(working, i.measured, reading),
        alarms,
        outputs: outputs::sampled(working, i.outputs, alarms::on_bits(alarms), reading),
    }
}

// Alarms that were reset, and the outputs that they drive.
fn with_reset(i: Instrument, alarms: [Alarm; 4]) -> Instrument
    ensures { result ≡ with_reset i alarms }
{
    Instrument {
        alarms,
        outputs: outputs::alarms_reset(i.outputs, alarms::on_bits(alarms)),
        ..i
    }
}

// R of a register, B to H.
#[tactic(auto, unfolding(instrument::specs::Instrument::reset_register))]
pub fn reset_register(working: Working, i: Instrument, register: usize) -> Instrument
    requires { (at "B" ≤ register) × (register ≤ at "H") }
    ensures { result ≡ reset_register working i register }
{
    let measured = match register {
        register::TOT => measured::reset_total(i.measured),
        register::MAX => measured::reset_max(i.measured),
        register::MIN => measured::reset_min(i.measured),
        _ => return with_reset(i, alarms::reset_at(i.alarms, register - register::SP1)),
    };
    Instrument { measured, ..i }
}

// Key 5: all four alarms.
pub fn reset_alarms(working: Working, i: Instrument) -> Instrument
    ensures { result ≡ reset_alarms working i }
{
    with_reset(i, alarms::all_reset(i.alarms))
}

// Key 1 in a meter set for batch.
pub fn batched(working: Working, i: Instrument) -> Instrument
    requires timed { Timed working.totalizer }
    requires ranged { in_range working.totalizer i.measured.total ≡ true }
    ensures { result ≡ batched working i }
{
    Instrument {
        measured: measured::batched(working, i.measured),
        ..i
    }
}

// Whether V is refused: the analog register is shut in automatic mode.
pub fn is_shut(mode: Mode, register: usize) -> bool
    ensures { result ≡ shut mode register }
{
    register == register::AOR && outputs::is_automatic(mode)
}

// V of a number, to E to H or I.
#[tactic(auto, unfolding(instrument::specs::Instrument::write_register))]
pub fn write_register(working: Working, i: Instrument, register: usize, z: i32) -> Instrument
    requires { (at "E" ≤ register) × (register ≤ at "I") }
    ensures { result ≡ write_register working i register z }
{
    if register == register::AOR {
        Instrument {
            outputs: outputs::write_code(i.outputs, z),
            ..i
        }
    } else {
        Instrument {
            alarms: alarms::written_at(i.alarms, register - register::SP1, z),
            ..i
        }
    }
}

// VJ: to manual mode with its outputs, or to automatic mode.
#[tactic(auto, unfolding(instrument::specs::Instrument::write_status))]
pub fn write_status(working: Working, i: Instrument, b: u8) -> Instrument
    requires { eq_z working.analog.low working.analog.high ≡ false }
    ensures { result ≡ write_status working i b }
{
    if alarms::bit(b, 16) {
        Instrument {
            outputs: outputs::to_manual(i.outputs, alarms::on_bits(i.alarms), b),
            ..i
        }
    } else {
        let alarms = alarms::reset_by_bits(b, i.alarms);
        Instrument {
            alarms,
            outputs: outputs::to_automatic(working, alarms::on_bits(alarms), i.measured.reading),
            ..i
        }
    }
}

// What T shows of a register.
#[tactic(auto, unfolding(instrument::specs::Shown::shown_at))]
pub fn shown_at(working: Working, i: Instrument, register: usize) -> Reading
    requires timed { Timed working.totalizer }
    requires ranged { in_range working.totalizer i.measured.total ≡ true }
    requires listed { register < count }
    ensures { result ≡ shown_at working i register }
{
    match register {
        register::INP => i.measured.reading,
        register::TOT => total::shown(working.totalizer, i.measured.total),
        register::MAX => extremes::shown(i.measured.max),
        register::MIN => extremes::shown(i.measured.min),
        register::AOR => Reading::Number(i.outputs.code),
        register::CSR => Reading::Number(i32::from(i.outputs.status)),
        _ => Reading::Number(i.alarms[register - register::SP1].setpoint),
    }
}

// The decimal places that it shows with.
#[tactic(auto, unfolding(instrument::specs::Shown::places_at))]
pub fn places_at(places: Places, register: usize) -> usize
    requires { places_rule places ≡ true }
    ensures { result ≡ places_at places register }
{
    match register {
        register::TOT => places.total as usize,
        register::AOR | register::CSR => 0,
        _ => places.input as usize,
    }
}

// Whether the instrument is one that can be shown and counted on.
#[tactic(auto, unfolding(instrument::specs::Instrument::sound))]
pub fn is_sound(working: Working, i: Instrument) -> bool
    requires { Timed working.totalizer }
    ensures { result ≡ sound working i }
{
    measured::is_sound(working, i.measured)
        && alarms::is_sound(i.alarms)
        && outputs::is_sound(i.outputs)
}
