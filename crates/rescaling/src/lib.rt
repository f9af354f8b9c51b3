// The lines of the program that rescales: what the first line makes of the program, what every later line is told, and what is printed.
#![tactic(auto)]

ghost use Rattle.std.specs.Prelude.{◌≡◌, true};
ghost use Rattle.text.specs.Line.{heard};
ghost use Rattle.text.specs.Output.{waiting, puts};
ghost use Rattle.config.specs.Config.{judged};
ghost use Rattle.rescaling.specs.Rescaling.{by_verdict, input_heard};
ghost use Rattle.rescaling.specs.Held.{opened_as, opened, without, awaits, said_by};
ghost use Rattle.rescaling.specs.Show.{number_line, answer_line, reading_line, shown_of};

pub mod held;

use answer::Answer;
use config::Config;
use held::Held;
use reading::Reading;
use record::{Event, WORDS};
use signed::put_number;
use text::Line;
use text::output::Out;

// What the first line has made of the program: none has come yet, a scale is held, a configuration was refused, or there was none.
#[derive(Clone, Copy)]
pub enum Mode {
    Awaiting,
    Scaled(Held),
    Silent,
    Unconfigured,
}

// What a line is told: the answer to a configuration, the reading of an input, that it is no line of this program, or nothing at all. These
// are four outcomes, of which none is the others' refusal.
#[derive(Clone, Copy)]
pub enum Said {
    Configured(Answer),
    Read(Reading),
    Unknown,
    Silence,
}

// What the first line did.
#[derive(Clone, Copy)]
pub struct Opened {
    pub mode: Mode,
    pub said: Said,
}

// ---- the first line

// A configuration, by the rules: an accepted one has a scale that segments can be made of.
fn configured(c: Config) -> Opened
    ensures { result ≡ opened_as (by_verdict c.scale (judged c)) }
{
    match config::judged(c) {
        Ok(()) => Opened {
            mode: Mode::Scaled(Held::new(scaling::made(c.scale))),
            said: Said::Configured(Answer::Done),
        },
        Err(rule) => Opened {
            mode: Mode::Silent,
            said: Said::Configured(Answer::Refused(rule.number())),
        },
    }
}

// A first line that is no configuration.
fn unconfigured() -> Opened
    ensures { result ≡ without Mode.Unconfigured Said.Unknown }
{
    Opened {
        mode: Mode::Unconfigured,
        said: Said::Unknown,
    }
}

// The first line, which decides for all the others.
pub fn first(line: &Line, settings: &mut [i32; WORDS]) -> Opened
    ensures { result ≡ opened (heard line.now) }
{
    match record::judge(line, settings) {
        Some(Event::Configuration) => configured(record::config_of(settings)),
        _ => unconfigured(),
    }
}

// ---- a later line

// Whether the first line is still to come.
pub fn awaits(mode: &Mode) -> bool
    ensures { result ≡ awaits mode.now }
{
    matches!(mode, Mode::Awaiting)
}

// The input that a line is: one number and nothing else.
fn input(line: &Line) -> Option<i32>
    ensures { result ≡ input_heard (heard line.now) }
{
    text::read_number(line.text()?)
}

// What a line behind the first is told.
pub fn told(mode: &Mode, line: &Line) -> Said
    ensures { result ≡ said_by mode.now (heard line.now) }
{
    match mode {
        Mode::Scaled(held) => match input(line) {
            Some(x) => Said::Read(held.read(x)),
            None => Said::Unknown,
        },
        Mode::Silent => Said::Silence,
        Mode::Awaiting | Mode::Unconfigured => Said::Unknown,
    }
}

// ---- what is printed

// A number's line.
fn put_number_line(out: &mut Out, z: i32)
    ensures { waiting out.new ≡ puts (waiting out.old) (number_line z) }
{
    put_number(out, i64::from(z));
    out.put(b"\n");
}

// A reading's line. No input reads Nothing; the two dashes are what a meter shows of it.
fn put_reading(out: &mut Out, reading: Reading)
    ensures { waiting out.new ≡ puts (waiting out.old) (reading_line reading) }
{
    match reading {
        Reading::Nothing => out.put(b"--\n"),
        Reading::Under => out.put(b"UL\n"),
        Reading::Number(v) => put_number_line(out, v),
        Reading::Over => out.put(b"OL\n"),
    }
}

// The line of a configuration: the answer's two numbers.
fn put_answer(out: &mut Out, a: Answer)
    ensures { waiting out.new ≡ puts (waiting out.old) (answer_line a) }
{
    out.put_natural(answer::number(a));
    out.put(b" ");
    out.put_natural(answer::value(a));
    out.put(b"\n");
}

// What is printed of what a line is told.
pub fn put_said(out: &mut Out, said: Said)
    ensures { waiting out.new ≡ puts (waiting out.old) (shown_of said) }
{
    match said {
        Said::Configured(a) => put_answer(out, a),
        Said::Read(reading) => put_reading(out, reading),
        Said::Unknown => out.put(b"?\n"),
        Said::Silence => {}
    }
}
