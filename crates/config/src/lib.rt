// The configuration as it is given, whatever its numbers, and the ten rules that it is judged by.
#![tactic(auto)]

ghost use Rattle.std.specs.Prelude.{◌≡◌, true};
ghost use Rattle.config.specs.Config.{places_rule, input_places, places_rule_by, point_count, count_rule, points_rule, total_rule, alarm_rule, alarms_rule, analog_rule, judged};
ghost use Rattle.config.specs.Verdict.{rule_number, unless, verdict_of};
ghost use Rattle.config.specs.Bench.{nothing, bench_meter};

use alarm::Settings;
use register::Print;
use total::Totalizer;

// Decimal places of the input and of the total.
#[derive(Clone, Copy)]
pub struct Places {
    pub input: i32,
    pub total: i32,
}

// Where the reading of an input comes from: the line between scaling points, or the table of a platinum sensor.
#[derive(Clone, Copy)]
pub enum Source {
    Points,
    Platinum,
}

// How an input is read: by which source, and to which rounding step; and the scaling points, of which the first so many are in use.
#[derive(Clone, Copy)]
pub struct Scale {
    pub source: Source,
    pub step: i32,
    pub count: i32,
    pub inputs: [i32; 16],
    pub displays: [i32; 16],
}

// The displays at which the analog code is 0 and 4,095.
#[derive(Clone, Copy)]
pub struct Analog {
    pub low: i32,
    pub high: i32,
}

// What works on a reading: the totalizer, the capture time of max and min in tenths of a second, the four alarms, the analog code.
#[derive(Clone, Copy)]
pub struct Working {
    pub totalizer: Totalizer,
    pub capture: i32,
    pub alarms: [Settings; 4],
    pub analog: Analog,
}

// What talks: the node, the decimal places, whether lines are abbreviated, and what a block prints.
#[derive(Clone, Copy)]
pub struct Talking {
    pub node: i32,
    pub places: Places,
    pub abbreviated: bool,
    pub print: Print,
}

// A configuration, by who reads it: the scale, what works on a reading, what talks, and the setpoints that the alarms start with. Every
// number is a signed 32-bit one, so that any value can be given and refused.
#[derive(Clone, Copy)]
pub struct Config {
    pub scale: Scale,
    pub working: Working,
    pub talking: Talking,
    pub setpoints: [i32; 4],
}

// The ten rules, in document 01's order and under its numbers.
#[derive(Clone, Copy, Debug, PartialEq, Eq)]
pub enum Rule {
    Node = 1,
    Places,
    RoundingStep,
    PointCount,
    Points,
    Total,
    LowCut,
    Alarms,
    Capture,
    Analog,
}

impl Rule {
    // A rule's number in document 01.
    pub fn number(self) -> u32
        ensures { result ≡ rule_number self }
    {
        self as u32
    }

    // Nothing where the rule is kept, and where it is broken the rule.
    fn unless(self, kept: bool) -> Result<(), Rule>
        ensures { result ≡ unless self kept }
    {
        if kept { Ok(()) } else { Err(self) }
    }
}

// Rule 4: the number of points, where the reading comes from them.
fn count_rule(source: Source, count: i32) -> bool
    ensures { result ≡ point_count source count }
{
    match source {
        Source::Points => exact::is_within(count, 2, 16),
        Source::Platinum => true,
    }
}

// Rule 5: the points in use, where the reading comes from them.
fn points_rule(s: &Scale) -> bool
    requires { count_rule s.now ≡ true }
    ensures { result ≡ points_rule s.now }
{
    match s.source {
        Source::Points => reading::points_in(&s.inputs, &s.displays, s.count as usize),
        Source::Platinum => true,
    }
}

// The time bases: a second, a minute, an hour, a day.
const TIME_BASES: [i32; 4] = [1, 60, 3600, 86400];

// Rule 6: the scale factor and the time base.
fn total_rule(t: Totalizer) -> bool
    ensures { result ≡ total_rule t }
{
    exact::is_within(t.factor, 1, 65000) && exact::among(t.time_base, &TIME_BASES)
}

// Rule 8 of one alarm.
#[tactic(auto, unfolding(crate::specs::Config::alarm_rule))]
fn alarm_rule(setpoint: i32, s: Settings) -> bool
    ensures { result ≡ alarm_rule setpoint s }
{
    exact::is_within(setpoint, -19999, 99999)
        && exact::is_within(s.hysteresis, 1, 9999)
        && exact::is_within(s.on_delay, 0, 32750)
        && exact::is_within(s.off_delay, 0, 32750)
}

// Rule 8.
fn alarms_rule(setpoints: &[i32; 4], alarms: &[Settings; 4]) -> bool
    ensures { result ≡ alarms_rule setpoints.now alarms.now }
{
    setpoints
        .iter()
        .zip(alarms.iter())
        .all(|(setpoint, settings)| alarm_rule(*setpoint, *settings))
}

// The decimal places that a line can show. Every event of a meter asks for them, so the first test does not decide a jump.
pub fn places_rule(p: Places) -> bool
    ensures { result ≡ places_rule p }
{
    exact::is_within(p.input, 0, 4) & exact::is_within(p.total, 0, 4)
}

// Those of the input, by its source: a platinum sensor's readings are tenths of a degree.
fn input_places(source: Source, places: i32) -> bool
    ensures { result ≡ input_places source places }
{
    match source {
        Source::Points => true,
        Source::Platinum => exact::is_within(places, 1, 1),
    }
}

// Rule 2: the decimal places.
fn places_rule_by(source: Source, p: Places) -> bool
    ensures { result ≡ places_rule_by source p }
{
    places_rule(p) && input_places(source, p.input)
}

// Rule 10: the analog displays lie in the display range and differ.
fn analog_rule(a: Analog) -> bool
    ensures { result ≡ analog_rule a }
{
    exact::is_within(a.low, -19999, 99999)
        && exact::is_within(a.high, -19999, 99999)
        && a.low != a.high
}

// Nothing where all rules are kept, and else the first that is broken.
pub fn judged(c: Config) -> Result<(), Rule>
    ensures { verdict_of result ≡ judged c }
{
    Rule::Node.unless(exact::is_within(c.talking.node, 0, 99))?;
    Rule::Places.unless(places_rule_by(c.scale.source, c.talking.places))?;
    Rule::RoundingStep.unless(exact::is_step(c.scale.step))?;
    Rule::PointCount.unless(count_rule(c.scale.source, c.scale.count))?;
    Rule::Points.unless(points_rule(&c.scale))?;
    Rule::Total.unless(total_rule(c.working.totalizer))?;
    Rule::LowCut.unless(exact::is_within(c.working.totalizer.low_cut, -19999, 99999))?;
    Rule::Alarms.unless(alarms_rule(&c.setpoints, &c.working.alarms))?;
    Rule::Capture.unless(exact::is_within(c.working.capture, 0, 32750))?;
    Rule::Analog.unless(analog_rule(c.working.analog))
}

// An alarm with no hysteresis, no delay and nothing set.
const NO_SETTINGS: Settings = Settings {
    hysteresis: 0,
    on_delay: 0,
    off_delay: 0,
    low_acting: false,
    latched: false,
};

// A configuration with nothing in it, which a program may start from: it has no points to scale by.
pub fn nothing() -> Config
    ensures { result ≡ nothing }
{
    Config {
        scale: Scale {
            source: Source::Points,
            step: 0,
            count: 0,
            inputs: [0; 16],
            displays: [0; 16],
        },
        working: Working {
            totalizer: Totalizer {
                batch: false,
                low_cut: 0,
                factor: 0,
                time_base: 0,
            },
            capture: 0,
            alarms: [NO_SETTINGS; 4],
            analog: Analog { low: 0, high: 0 },
        },
        talking: Talking {
            node: 0,
            places: Places { input: 0, total: 0 },
            abbreviated: false,
            print: Print {
                input: false,
                extremes: false,
                total: false,
                setpoints: false,
            },
        },
        setpoints: [0; 4],
    }
}

// Document 01's bench meter.
pub fn bench() -> Config
    ensures { result ≡ bench_meter }
{
    let settings = Settings {
        hysteresis: 1,
        ..NO_SETTINGS
    };
    let nothing = nothing();
    let mut scale = nothing.scale;
    scale.step = 1;
    scale.count = 2;
    scale.inputs[1] = 1000;
    scale.displays[1] = 2000;
    Config {
        scale,
        working: Working {
            totalizer: Totalizer {
                batch: false,
                low_cut: -19999,
                factor: 1000,
                time_base: 60,
            },
            capture: 0,
            alarms: [settings; 4],
            analog: Analog {
                low: 0,
                high: 10000,
            },
        },
        talking: Talking {
            node: 5,
            places: Places { input: 1, total: 0 },
            ..nothing.talking
        },
        setpoints: [100, 200, 300, 400],
    }
}
