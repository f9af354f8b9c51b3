// What a line of the replayed history shows: the answer, the whole state of the meter, and the buffer.
#![tactic(auto, using(crate::proofs::Pieces::puts_next), unfolding(text::specs::Output::puts, crate::specs::Show::named, crate::specs::Show::reading_word, crate::specs::Show::quotient_of, crate::specs::Show::buffer_words, crate::specs::Show::streak_words, crate::specs::Show::extreme_words, crate::specs::Show::measured_words, crate::specs::Show::alarm_words, crate::specs::Show::mode_words, crate::specs::Show::output_words, crate::specs::Show::received_words, crate::specs::Show::meter_words, crate::specs::Show::event_line,))]

ghost use Rattle.std.specs.Prelude.{◌≡◌};
ghost use Rattle.text.specs.Output.{waiting, puts};
ghost use Rattle.show.specs.Show.{named, answer_pieces, power_line, reading_word, quotient_of, total_words, trimmed, buffer_words, streak_words, extreme_words, measured_words, number_words, alarm_words, mode_words, output_words, received_words, meter_words, is_not_started, event_line};

use alarm::Alarm;
use answer::Answer;
use extremes::{Extreme, Streak};
use hexadecimal::put_hex;
use measured::Measured;
use meter::Meter;
use outputs::{Mode, Outputs};
use reading::Reading;
use receiver::Receiver;
use signed::put_number;
use text::output::Out;
use total::{Range, Total, Totalizer};

// What stands in every byte of a reply buffer that nothing was written to. It is left out where it stands at the end.
pub const UNWRITTEN: u8 = 238;

// A word of the line: its name, and a number.
fn put_named(out: &mut Out, name: &[u8], z: i64)
    ensures { waiting out.new ≡ puts (waiting out.old) (named name.now z) }
{
    out.put(name);
    put_number(out, z);
}

// A number of each alarm, with a comma before the second and those behind it.
#[tactic(auto, using(crate::proofs::Pieces::puts_next, crate::proofs::Pieces::numbers_first, crate::proofs::Pieces::commas_next, crate::proofs::Pieces::commas_out), unfolding(text::specs::Output::puts))]
fn put_numbers(out: &mut Out, name: &[u8], numbers: &[i64; 4])
    ensures { waiting out.new ≡ puts (waiting out.old) (number_words name.now numbers.now) }
{
    put_named(out, name, numbers[0]);
    for &z in &numbers[1..] {
        put_named(out, b",", z);
    }
}

fn put_reading(out: &mut Out, name: &[u8], reading: Reading)
    ensures { waiting out.new ≡ puts (waiting out.old) (reading_word name.now reading) }
{
    out.put(name);
    match reading {
        Reading::Nothing => out.put(b"--"),
        Reading::Under => out.put(b"UL"),
        Reading::Number(v) => put_number(out, i64::from(v)),
        Reading::Over => out.put(b"OL"),
    }
}

// The total of a sum, where the time base is one that can be.
fn quotient(s: &Totalizer, sum: i64) -> i64
    ensures { result ≡ quotient_of s.now sum }
{
    if s.time_base < 1 {
        return 0;
    }
    exact::cut(sum, 20000 * i64::from(s.time_base))
}

#[tactic(auto, using(crate::proofs::Pieces::puts_next), unfolding(text::specs::Output::puts, crate::specs::Show::total_words))]
fn put_total(out: &mut Out, s: &Totalizer, t: &Total)
    ensures { waiting out.new ≡ puts (waiting out.old) (total_words s.now t.now) }
{
    put_named(out, b" SUM=", t.sum);
    match t.range {
        Range::Within => put_named(out, b" TOT=", quotient(s, t.sum)),
        Range::Under => out.put(b" TOT=UL"),
        Range::Over => out.put(b" TOT=OL"),
    }
}

// The run of a max or a min: how many readings, and the number that it remembers, or 0 where none goes on.
fn put_streak(out: &mut Out, name: &[u8], run: Option<Streak>)
    ensures { waiting out.new ≡ puts (waiting out.old) (streak_words name.now run) }
{
    match run {
        None => put_named(out, name, 0),
        Some(s) => {
            put_named(out, name, i64::from(s.readings));
            put_named(out, b":", i64::from(s.nearest));
        }
    }
}

fn put_extremes(out: &mut Out, max: Extreme, min: Extreme)
    ensures { waiting out.new ≡ puts (waiting out.old) (extreme_words max min) }
{
    put_reading(out, b" MAX=", extremes::shown(max));
    put_reading(out, b" MIN=", extremes::shown(min));
    put_streak(out, b" MR=", max.run);
    put_streak(out, b" NR=", min.run);
}

fn put_alarms(out: &mut Out, alarms: &[Alarm; 4])
    ensures { waiting out.new ≡ puts (waiting out.old) (alarm_words alarms.now) }
{
    put_numbers(out, b" SP=", &alarms.map(|a| i64::from(a.setpoint)));
    out.put(b" AL=");
    out.put(&alarms.map(|a| if a.on { b'1' } else { b'0' }));
    put_numbers(out, b" RUN=", &alarms.map(|a| i64::from(a.run)));
}

fn put_mode(out: &mut Out, mode: Mode)
    ensures { waiting out.new ≡ puts (waiting out.old) (mode_words mode) }
{
    match mode {
        Mode::Automatic => out.put(b" MODE=A MAN=0"),
        Mode::Manual(outputs) => put_named(out, b" MODE=M MAN=", i64::from(outputs)),
    }
}

// What was measured: reading, total, max and min.
fn put_measured(out: &mut Out, s: &Totalizer, m: &Measured)
    ensures { waiting out.new ≡ puts (waiting out.old) (measured_words s.now m.now) }
{
    put_reading(out, b" R=", m.reading);
    put_total(out, s, &m.total);
    put_extremes(out, m.max, m.min);
}

// How the outputs are driven: analog code, mode.
fn put_outputs(out: &mut Out, outputs: &Outputs)
    ensures { waiting out.new ≡ puts (waiting out.old) (output_words outputs.now) }
{
    put_named(out, b" AO=", i64::from(outputs.code));
    put_mode(out, outputs.mode);
}

// The half received string, or that it is too long.
fn put_received(out: &mut Out, held: &Receiver)
    ensures { waiting out.new ≡ puts (waiting out.old) (received_words held.now) }
{
    out.put(b" RX=");
    if receiver::is_over(held.length) {
        out.put(b"- RXO=1");
    } else {
        put_hex(out, &held.bytes[..held.length]);
        out.put(b" RXO=0");
    }
}

// The buffer without those bytes at its end that were not written.
fn written(buffer: &[u8]) -> &[u8]
    ensures { result.now ≡ trimmed buffer.now }
{
    match buffer.iter().rposition(|&b| b != UNWRITTEN) {
        Some(last) => &buffer[..=last],
        None => &[],
    }
}

fn put_buffer(out: &mut Out, buffer: &[u8])
    ensures { waiting out.new ≡ puts (waiting out.old) (buffer_words buffer.now) }
{
    out.put(b" BUF=");
    put_hex(out, written(buffer));
    out.put(b"\n");
}

// The answer's two numbers, with what stands between them.
fn put_answer(out: &mut Out, a: Answer, between: &[u8])
    ensures { waiting out.new ≡ puts (waiting out.old) (answer_pieces a between.now) }
{
    out.put_natural(answer::number(a));
    out.put(between);
    out.put_natural(answer::value(a));
}

// The line of a configuration.
pub fn put_power_up(out: &mut Out, a: Answer)
    ensures { waiting out.new ≡ puts (waiting out.old) (power_line a) }
{
    put_answer(out, a, b" ");
    out.put(b"\n");
}

fn put_state(out: &mut Out, m: &Meter)
    ensures { waiting out.new ≡ puts (waiting out.old) (meter_words m.now) }
{
    put_measured(out, &m.config.working.totalizer, &m.instrument.measured);
    put_alarms(out, &m.instrument.alarms);
    put_outputs(out, &m.instrument.outputs);
    put_received(out, &m.receiver);
}

// Whether the meter is not started, and so has no state to show.
fn is_not_started(a: Answer) -> bool
    ensures { result ≡ is_not_started a }
{
    matches!(a, Answer::NotStarted)
}

// The line of an event.
pub fn put_event(out: &mut Out, a: Answer, m: &Meter, buffer: &[u8])
    ensures { waiting out.new ≡ puts (waiting out.old) (event_line a m.now buffer.now) }
{
    out.put(b"A=");
    put_answer(out, a, b" V=");
    if !is_not_started(a) {
        put_state(out, m);
    }
    put_buffer(out, buffer);
}
