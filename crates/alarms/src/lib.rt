// The four alarms: what a sample, V, R and VJ make of them, and what is shown of them.
#![tactic(auto)]

ghost use Rattle.std.specs.Prelude.{◌≡◌, ◌≤◌, ◌<◌, ◌/◌, ◌%◌, eqb};
ghost use Rattle.alarms.specs.Alarms.{powered_up, all_sampled, reset_at, all_reset, written_at, reset_by_bits, setpoints, on_bits, sound};

use alarm::{Alarm, Settings};
use reading::Reading;
use std::array;

// Four alarms at power-up.
pub fn powered_up(setpoints: [i32; 4]) -> [Alarm; 4]
    ensures { result ≡ powered_up setpoints }
{
    setpoints.map(alarm::off)
}

// One sample of all four.
#[tactic(auto, unfolding(crate::specs::Alarms::all_sampled))]
pub fn all_sampled(settings: [Settings; 4], alarms: [Alarm; 4], reading: Reading) -> [Alarm; 4]
    ensures { result ≡ all_sampled settings alarms reading }
{
    array::from_fn(|k| alarm::sampled(settings[k], alarms[k], reading))
}

// RE to RH: one alarm.
pub fn reset_at(mut alarms: [Alarm; 4], k: usize) -> [Alarm; 4]
    requires { k < 4 }
    ensures { result ≡ reset_at alarms k }
{
    alarms[k] = alarm::reset(alarms[k]);
    alarms
}

// Key 5: all of them.
pub fn all_reset(alarms: [Alarm; 4]) -> [Alarm; 4]
    ensures { result ≡ all_reset alarms }
{
    alarms.map(alarm::reset)
}

// A setpoint: its alarm knows whether the value is new.
pub fn written_at(mut alarms: [Alarm; 4], k: usize, z: i32) -> [Alarm; 4]
    requires { k < 4 }
    ensures { result ≡ written_at alarms k z }
{
    alarms[k] = alarm::written(alarms[k], z);
    alarms
}

// Whether the bit of a weight is set.
pub fn bit(b: u8, weight: u8) -> bool
    requires { 0 < weight }
    ensures { result ≡ eqb (b / weight % 2) 1 }
{
    b / weight % 2 == 1
}

// Each alarm whose bit is 1 stays as it is, any other is reset.
pub fn reset_by_bits(b: u8, alarms: [Alarm; 4]) -> [Alarm; 4]
    ensures { result ≡ reset_by_bits b alarms }
{
    array::from_fn(|k| {
        if bit(b, 1 << k) {
            alarms[k]
        } else {
            alarm::reset(alarms[k])
        }
    })
}

// The four setpoints.
pub fn setpoints(alarms: [Alarm; 4]) -> [i32; 4]
    ensures { result ≡ setpoints alarms }
{
    alarms.map(|a| a.setpoint)
}

// The alarms that are on, as bits 0 to 3.
#[tactic(auto, unfolding(crate::specs::Alarms::on_bits))]
pub fn on_bits(alarms: [Alarm; 4]) -> u32
    ensures value { result ≡ on_bits alarms }
    ensures small { result ≤ 15 }
{
    let [a, b, c, d] = alarms;
    u32::from(a.on) + 2 * u32::from(b.on) + 4 * u32::from(c.on) + 8 * u32::from(d.on)
}

// Whether the four setpoints can be displayed. A test that fails does not end it, so the compiler takes all four at a time: every event of
// a meter is judged by it, and an iterator's `all` costs it 38 instructions more.
#[tactic(auto, unfolding(crate::specs::Alarms::sound))]
pub fn is_sound(alarms: [Alarm; 4]) -> bool
    ensures { result ≡ sound alarms }
{
    let [a, b, c, d] = alarms;
    reading::in_display(a.setpoint)
        & reading::in_display(b.setpoint)
        & reading::in_display(c.setpoint)
        & reading::in_display(d.setpoint)
}
