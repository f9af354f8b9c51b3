// The worked example of "looking changes nothing": one excursion above a setpoint, polled 0, 10 and 1,000 times behind each sample.
// Printed is the first alarm after each sample, 1 for on and 0 for off: of this core, and of the core before it, which counted an off
// delay from the last poll. The example is `looking`'s own, and each printed state of this core has a contract by its definition `lit`,
// so that its theorem `OffDelay.always` speaks of these rows.
#![tactic(auto)]

ghost use Rattle.std.specs.Prelude.{◌≡◌, refl, Bool, [], ◌∷◌, ℕ, pos};
ghost use Rattle.alarms.specs.Alarms.{alarm_at};
ghost use Rattle.reading.specs.declared.Reading.TheVariants.{Number};
ghost use Rattle.instrument.specs.Instrument.{read};
ghost use Rattle.looking.specs.History.{History, sample, byte, meter_after};
ghost use Rattle.config.specs.Bench.{high};
ghost use Rattle.looking.specs.Polls.{lent, poll, polls, bench, asking, excursion, lit};
ghost use Rattle.excursion.specs.Old.{old_alarm, old_lit};
ghost use Rattle.excursion.specs.Row.{digit, row_of};

use alarm::{Alarm, Settings};
use config::Config;
use meter::Meter;
use reading::Reading;
use std::array;
use std::io::{Print, Stdout};

// ---- the meter

// An alarm with an off delay of so many tenths.
fn settings(off_delay: i32) -> Settings
    ensures { result ≡ high (pos 0) off_delay }
{
    Settings {
        hysteresis: 1,
        on_delay: 0,
        off_delay,
        low_acting: false,
        latched: false,
    }
}

// The bench meter of document 01, with an off delay of 2 tenths, which is 4 samples, on its first alarm.
fn bench_config() -> Config
    ensures { result ≡ bench }
{
    let mut config = config::bench();
    config.working.alarms[0] = settings(2);
    config
}

// ---- what the example is carried out on: this core's meter, or the old core's alarm

// `after` is what a history leaves, so that where a value is the one that a history leaves, the longer history leaves what comes back.
// `on` is whether the first alarm is on, and `lit` whether it is after the example; `lit_is` ties the two.
trait Core: Copy {
    ghost after: { History → Self };

    ghost on: { Self → Bool };

    ghost lit: { ℕ → ℕ → Bool };

    // As it is before any event.
    fn started() -> Self
        ensures { result ≡ after [] };

    // One byte, with a buffer of 163 zeros lent for it.
    fn heard(self, b: u8) -> Self
        ensures { (h : History) → self ≡ after h → result ≡ after (byte b 0 lent ∷ h) };

    // A sample, by its input and by what that reads.
    fn sampled(self, input: i32, reading: i32) -> Self
        requires { read bench.scale input ≡ Number reading }
        ensures { (h : History) → self ≡ after h → result ≡ after (sample input ∷ h) };

    // Whether the first alarm is on.
    fn is_lit(self) -> bool
        ensures { result ≡ on self };

    ghost lit_is: { (n k : ℕ) → on (after (excursion n k)) ≡ lit n k };
}

// This core, by its public calls.
impl Core for Meter {
    ghost after = { meter_after bench };

    ghost on = { λ m. (alarm_at m.instrument.alarms 0).on };

    ghost lit = { lit };

    ghost lit_is = { λ n k. refl };

    fn started() -> Meter {
        Meter::power_up(bench_config()).meter
    }

    fn heard(self, b: u8) -> Meter {
        let mut buffer = [0; 163];
        self.byte(b, &mut buffer, 0).meter
    }

    fn sampled(self, input: i32, _reading: i32) -> Meter {
        self.sample(input).meter
    }

    fn is_lit(self) -> bool {
        self.instrument.alarms[0].on
    }
}

// The old core's alarm, as far as its fault goes: where a string ends while the alarm is on, its run begins again at 0.
impl Core for Alarm {
    ghost after = { old_alarm };

    ghost on = { λ a. a.on };

    ghost lit = { old_lit };

    ghost lit_is = { λ n k. refl };

    fn started() -> Alarm {
        alarm::off(100)
    }

    fn heard(self, b: u8) -> Alarm {
        match b {
            b'*' | b'$' if self.on => Alarm { run: 0, ..self },
            _ => self,
        }
    }

    fn sampled(self, _input: i32, reading: i32) -> Alarm {
        alarm::sampled(settings(2), self, Reading::Number(reading))
    }

    fn is_lit(self) -> bool {
        self.on
    }
}

// ---- the example, over either

// The string that asks node 5 for its first setpoint, sent whole.
fn polled<C: Core>(core: C) -> C
    ensures { (h : History) → core ≡ C.after h → result ≡ C.after (poll asking h) }
{
    core.heard(b'N')
        .heard(b'5')
        .heard(b'T')
        .heard(b'E')
        .heard(b'*')
}

// A sample, and so many polls behind it.
fn sampled<C: Core>(core: C, input: i32, reading: i32, times: usize) -> C
    requires { read bench.scale input ≡ Number reading }
    ensures { (h : History) → core ≡ C.after h → result ≡ C.after (polls asking times (sample input ∷ h)) }
{
    let mut core = core.sampled(input, reading);
    for _ in 0..times {
        core = polled(core);
    }
    core
}

// Whether the first alarm is on after one sample that reads 120 and so many that read 80, with so many polls behind each.
fn lit<C: Core>(times: usize, below: usize) -> bool
    ensures { result ≡ C.lit times below }
{
    let mut core = sampled(C::started(), 60, 120, times);
    for _ in 0..below {
        core = sampled(core, 40, 80, times);
    }
    core.is_lit()
}

// ---- what is printed

fn digit(on: bool) -> u8
    ensures { result ≡ digit on }
{
    if on { b'1' } else { b'0' }
}

// The states after each of seven samples.
fn row<C: Core>(times: usize) -> [u8; 7]
    ensures { result ≡ row_of (C.lit times) }
{
    array::from_fn(|below| digit(lit::<C>(times, below)))
}

fn put_line(to: Stdout, times: usize) {
    let _ = to.write_all(&row::<Meter>(times));
    let _ = to.write_all(b"    ");
    let _ = to.write_all(&row::<Alarm>(times));
    let _ = to.write_all(b"    ");
    let _ = to.print(times as u64);
    let _ = to.write_all(b"\n");
}

fn main(rt: HostRuntime) {
    let to = rt.stdout();
    let _ = to.write_all(b"this core  old core   polls behind each sample\n");
    put_line(to, 0);
    put_line(to, 10);
    put_line(to, 1000);
}
