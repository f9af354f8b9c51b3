// What a line of a recorded history says.
//
//   CFG ..          a configuration: `WORDS` words, in the order that `config_of` says, of which the last may be left out
//   S n             a sample
//   K n place       a key
//   B byte place    a received byte
//
// One space stands between two words, and nothing else. Any other line is bad: a number past its width, a byte past 255, a yes/no
// that is neither 0 nor 1, a word too many or too few. The last word of a configuration is the sensor, 0 points or 1 platinum: a line
// without it says what it says with a 0 there, so that files from before there was a sensor mean what they meant.
//
// The format grows without breaking old files: a new setting comes as a further word at the end of `CFG`, where a line without it has
// the value that leaves the meter as it was, and anything else comes as a line with a letter of its own.
#![tactic(auto)]

ghost use Rattle.std.specs.Prelude.{◌≡◌, Option, Some, None, false, cond, ◌||◌, [], ◌∷◌, ◌+◌, ◌≤◌, ◌<◌, eqb, pos, length, get_or, set, true, MatchOption};
ghost use Rattle.text.specs.Line.{heard, has, before, after};
ghost use Rattle.record.specs.Record.{word_count, sensor_at, words, place_of, sample_said, key_said, byte_said, setting_of, kinds, configuration_said, configuration_read, short_said, short_by, event_of, read_of, stored, event_heard, read_heard};
ghost use Rattle.record.specs.Configuration.{in_turn, source_of, scale_of, totalizer_of, alarm_of, working_of, print_of, talking_of, config_of};

use alarm::Settings;
use config::{Analog, Config, Places, Scale, Source, Talking, Working};
use register::Print;
use std::array;
use text::Line;
use total::Totalizer;

// How many words a configuration has.
pub const WORDS: usize = 74;

// The place of the last, the sensor: a line without it has so many.
const SENSOR: usize = 73;

// Where the words of the alarms begin, and how many each of the four has. The first of them is its setpoint.
const ALARMS: usize = 40;

const EACH: usize = 6;

// A configuration's words are in the array that `judge` is lent.
#[derive(Clone, Copy)]
pub enum Event {
    Configuration,
    Sample(i32),
    Key(i32, usize),
    Byte(u8, usize),
}

// A place: an unsigned number of 64 bits, which has at most 20 digits.
fn place(s: &[u8]) -> Option<u64>
    ensures { result ≡ place_of s.now }
{
    text::read_natural(20, s)
}

fn sample(s: &[u8]) -> Option<Event>
    ensures { result ≡ sample_said (words s.now) }
{
    Some(Event::Sample(text::read_number(s)?))
}

// The first word, and what is behind the space that ends it.
fn parted(s: &[u8]) -> Option<(&[u8], &[u8])>
    ensures { MatchOption result (has 32 s.now ≡ false) (λ p. (has 32 s.now ≡ true) × (p.0.now ≡ before 32 s.now) × (p.1.now ≡ after 32 s.now)) }
{
    let end = text::word_end(s, 0);
    if end < s.len() {
        Some((&s[..end], &s[end + 1..]))
    } else {
        None
    }
}

fn key(s: &[u8]) -> Option<Event>
    ensures { result ≡ key_said (words s.now) }
{
    let (number, at) = parted(s)?;
    Some(Event::Key(text::read_number(number)?, place(at)? as usize))
}

fn byte(s: &[u8]) -> Option<Event>
    ensures { result ≡ byte_said (words s.now) }
{
    let (number, at) = parted(s)?;
    let byte = u8::try_from(text::read_natural(3, number)?).ok()?;
    Some(Event::Byte(byte, place(at)? as usize))
}

// Whether word i of a configuration is a yes/no: the last two of each alarm's six, and the last seven of all.
fn is_flag(i: usize) -> bool
    requires { i < word_count }
    ensures { result ≡ get_or kinds i false }
{
    if (40..64).contains(&i) {
        4 <= (i - 40) % 6
    } else {
        67 <= i
    }
}

// Word i of a configuration. A yes is 1, a no is 0.
fn setting(i: usize, s: &[u8]) -> Option<i32>
    requires { i < word_count }
    ensures { result ≡ setting_of (get_or kinds i false) s.now }
{
    if is_flag(i) {
        text::read_flag(s).map(i32::from)
    } else {
        text::read_number(s)
    }
}

// The words of a configuration, as many as there are places for them.
fn configuration(s: &[u8], settings: &mut [i32; WORDS]) -> Option<Event>
    ensures value { result ≡ configuration_said (words s.now) }
    ensures settings_after { settings.new ≡ stored 0 settings.old (configuration_read (words s.now)) }
{
    let mut at = 0;
    // each word is judged by its place
    for i in 0..WORDS {
        let e = text::word_end(s, at);
        settings[i] = setting(i, &s[at..e])?;
        if e == s.len() {
            return ended(i + 1, settings);
        }
        at = e + 1;
    }
    None
}

// A line that ends after so many words. Where it ends before the sensor, the array may still hold that of an earlier line.
fn ended(count: usize, settings: &mut [i32; WORDS]) -> Option<Event>
    ensures value { result ≡ cond (eqb count sensor_at || eqb count word_count) (Some Event.Configuration) None }
    ensures settings_after { settings.new ≡ cond (eqb count sensor_at) (set settings.old sensor_at (pos 0)) settings.old }
{
    if count == SENSOR {
        settings[SENSOR] = 0;
        return Some(Event::Configuration);
    }
    if count == WORDS {
        Some(Event::Configuration)
    } else {
        None
    }
}

// A line of one letter, a space and the rest.
fn short(k: u8, s: &[u8]) -> Option<Event>
    ensures { result ≡ short_said (k ∷ []) (words s.now) }
{
    match k {
        b'S' => sample(s),
        b'K' => key(s),
        b'B' => byte(s),
        _ => None,
    }
}

// A line, as its bytes without the LF.
fn parse(s: &[u8], settings: &mut [i32; WORDS]) -> Option<Event>
    ensures value { result ≡ event_of s.now }
    ensures settings_after { settings.new ≡ stored 0 settings.old (read_of s.now) }
{
    match s.strip_prefix(b"CFG ") {
        Some(rest) => configuration(rest, settings),
        None => brief(s),
    }
}

// A line of one letter and what belongs to it.
fn brief(s: &[u8]) -> Option<Event>
    ensures { result ≡ short_by (words s.now) }
{
    match s {
        [letter, b' ', rest @ ..] => short(*letter, rest),
        _ => None,
    }
}

// What a line says, and the words of a configuration put into the array. A line that is too long says nothing.
pub fn judge(line: &Line, settings: &mut [i32; WORDS]) -> Option<Event>
    ensures value { result ≡ event_heard (heard line.now) }
    ensures settings_after { settings.new ≡ stored 0 settings.old (read_heard (heard line.now)) }
{
    parse(line.text()?, settings)
}

// Every second word from a place on, for the 16 points: their inputs and their displays stand in turn.
fn in_turn(s: &[i32; WORDS], at: usize) -> [i32; 16]
    requires { at + 31 ≤ word_count }
    ensures { result ≡ in_turn 16 s.now at }
{
    array::from_fn(|i| s[at + 2 * i])
}

// An alarm's six words from a place on: setpoint, hysteresis, on and off delay, low acting, latched.
fn alarm_at(s: &[i32; WORDS], at: usize) -> Settings
    requires { at + 6 ≤ word_count }
    ensures { result ≡ alarm_of s.now at }
{
    Settings {
        hysteresis: s[at + 1],
        on_delay: s[at + 2],
        off_delay: s[at + 3],
        low_acting: s[at + 4] == 1,
        latched: s[at + 5] == 1,
    }
}

// 1 is a platinum sensor.
fn source_of(s: &[i32; WORDS]) -> Source
    ensures { result ≡ source_of s.now }
{
    if s[SENSOR] == 1 {
        Source::Platinum
    } else {
        Source::Points
    }
}

fn scale_of(s: &[i32; WORDS]) -> Scale
    ensures { result ≡ scale_of s.now }
{
    Scale {
        source: source_of(s),
        step: s[3],
        count: s[4],
        inputs: in_turn(s, 5),
        displays: in_turn(s, 6),
    }
}

fn totalizer_of(s: &[i32; WORDS]) -> Totalizer
    ensures { result ≡ totalizer_of s.now }
{
    Totalizer {
        batch: s[67] == 1,
        low_cut: s[39],
        factor: s[37],
        time_base: s[38],
    }
}

fn working_of(s: &[i32; WORDS]) -> Working
    ensures { result ≡ working_of s.now }
{
    Working {
        totalizer: totalizer_of(s),
        capture: s[64],
        alarms: array::from_fn(|k| alarm_at(s, ALARMS + EACH * k)),
        analog: Analog {
            low: s[65],
            high: s[66],
        },
    }
}

fn print_of(s: &[i32; WORDS]) -> Print
    ensures { result ≡ print_of s.now }
{
    Print {
        input: s[69] == 1,
        extremes: s[70] == 1,
        total: s[71] == 1,
        setpoints: s[72] == 1,
    }
}

fn talking_of(s: &[i32; WORDS]) -> Talking
    ensures { result ≡ talking_of s.now }
{
    Talking {
        node: s[0],
        places: Places {
            input: s[1],
            total: s[2],
        },
        abbreviated: s[68] == 1,
        print: print_of(s),
    }
}

// The configuration of its words: node, places of input and total, rounding, number of points, 16 points, factor, time base, low cut,
// four alarms, capture, analog low and high, batch, abbreviated, what a block prints, and the sensor.
#[tactic(auto, unfolding(crate::specs::Configuration::config_of))]
pub fn config_of(s: &[i32; WORDS]) -> Config
    ensures value { result ≡ config_of s.now }
    ensures s_len { length s.now ≡ word_count }
{
    Config {
        scale: scale_of(s),
        working: working_of(s),
        talking: talking_of(s),
        setpoints: array::from_fn(|k| s[ALARMS + EACH * k]),
    }
}
