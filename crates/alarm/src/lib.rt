// One alarm: through a sample, a reset and a written setpoint.
#![tactic(auto)]

ghost use Rattle.std.specs.Prelude.{◌≡◌, cond};
ghost use Rattle.alarm.specs.Alarm.{above, below, on_condition, off_condition, awaited, delay, off, moved, sampled, reset, written};

use reading::Reading;
use run::Run;

// What the configuration says of an alarm, with the delays in tenths of a second.
#[derive(Clone, Copy)]
pub struct Settings {
    pub hysteresis: i32,
    pub on_delay: i32,
    pub off_delay: i32,
    pub low_acting: bool,
    pub latched: bool,
}

// An alarm's state, with the run of samples that meet the condition it waits for.
#[derive(Clone, Copy)]
pub struct Alarm {
    pub setpoint: i32,
    pub on: bool,
    pub run: u32,
}

// Whether a reading lies beyond a number: below it where this says so, else above it. Over lies above every number and Under below, and
// nothing lies on no side.
#[tactic(auto, unfolding(crate::specs::Alarm::above, crate::specs::Alarm::below))]
fn beyond(is_below: bool, reading: Reading, z: i64) -> bool
    ensures { result ≡ cond is_below (below reading z) (above reading z) }
{
    match reading {
        Reading::Nothing => false,
        Reading::Under => is_below,
        Reading::Number(v) if is_below => i64::from(v) < z,
        Reading::Number(v) => i64::from(v) > z,
        Reading::Over => !is_below,
    }
}

// The condition to go on: beyond the setpoint, on the side on which the alarm acts.
#[tactic(auto, unfolding(crate::specs::Alarm::on_condition))]
fn on_condition(s: Settings, a: Alarm, reading: Reading) -> bool
    ensures { result ≡ on_condition s a reading }
{
    beyond(s.low_acting, reading, i64::from(a.setpoint))
}

// The condition to go off, back by the hysteresis at least: at most z is below z + 1, and at least z is above z - 1.
fn off_condition(s: Settings, a: Alarm, reading: Reading) -> bool
    ensures { result ≡ off_condition s a reading }
{
    let setpoint = i64::from(a.setpoint);
    let hysteresis = i64::from(s.hysteresis);
    if s.low_acting {
        beyond(false, reading, setpoint + hysteresis - 1)
    } else {
        beyond(true, reading, setpoint - hysteresis + 1)
    }
}

// The condition that the alarm waits for: to go on while it is off, to go off while it is on and not latched.
#[tactic(auto, unfolding(crate::specs::Alarm::awaited))]
fn awaited(s: Settings, a: Alarm, reading: Reading) -> bool
    ensures { result ≡ awaited s a reading }
{
    if a.on {
        !s.latched && off_condition(s, a, reading)
    } else {
        on_condition(s, a, reading)
    }
}

// The delay that the alarm waits for.
#[tactic(auto, unfolding(crate::specs::Alarm::delay))]
fn delay(s: Settings, a: Alarm) -> i32
    ensures { result ≡ delay s a }
{
    if a.on { s.off_delay } else { s.on_delay }
}

// An alarm at power-up: off, with its setpoint.
pub fn off(setpoint: i32) -> Alarm
    ensures { result ≡ off setpoint }
{
    Alarm {
        setpoint,
        on: false,
        run: 0,
    }
}

// What a run makes of the alarm: complete, it changes the state.
#[tactic(auto, unfolding(crate::specs::Alarm::moved))]
fn moved(a: Alarm, run: Run) -> Alarm
    ensures { result ≡ moved a run }
{
    match run {
        Run::Broken => Alarm { run: 0, ..a },
        Run::Going(run) => Alarm { run, ..a },
        Run::Complete => Alarm {
            on: !a.on,
            run: 0,
            ..a
        },
    }
}

// One sample.
#[tactic(auto, unfolding(crate::specs::Alarm::sampled))]
pub fn sampled(s: Settings, a: Alarm, reading: Reading) -> Alarm
    ensures { result ≡ sampled s a reading }
{
    let holds = awaited(s, a, reading);
    moved(a, run::counted(a.run, holds, run::samples(delay(s, a))))
}

// A reset makes the state off and the run 0.
#[tactic(auto, unfolding(crate::specs::Alarm::reset))]
pub fn reset(a: Alarm) -> Alarm
    ensures { result ≡ reset a }
{
    off(a.setpoint)
}

// A written setpoint: the present value changes nothing, a new one makes the run 0 and leaves the state.
#[tactic(auto, unfolding(crate::specs::Alarm::written))]
pub fn written(a: Alarm, setpoint: i32) -> Alarm
    ensures { result ≡ written a setpoint }
{
    if setpoint == a.setpoint {
        a
    } else {
        Alarm {
            setpoint,
            run: 0,
            ..a
        }
    }
}
