// Events in numbers, for whoever counts what they cost: each line of standard input says how many events of a kind a new meter is given,
// one after another. What the last one is answered is printed, and then what key 6 is answered, whose block shows that they were carried
// out. `?` is printed for any other line. Lines are taken from the first 4,096 bytes, and each has its LF.
//
//     M times          samples, with one input in each segment by turns
//     S times input    samples with one input
//     N times input    the same to a meter not started
//     K times number   one key
//     B times bytes    the bytes by turns
//     R times          the inputs of M read in bulk, 128 at a time, as often as that many go into the number; the last 16 readings are
//                      printed, and no meter is given anything
//     P times          as M, to a meter with a platinum sensor, whose inputs read what those of M do
//     O times          as R, by that sensor
#![tactic(auto)]

ghost use Rattle.std.specs.Prelude.{◌<◌, ◌≤◌, length};

use alarm::Settings;
use answer::Answer;
use config::{Analog, Config, Scale, Source, Talking, Working};
use meter::{Meter, Outcome};
use std::array;
use std::io::{Print, Read, Stdin, Stdout};
use text::Line;
use total::Totalizer;

// ---- the meter

fn alarm(on_delay: i32, off_delay: i32, low_acting: bool, latched: bool) -> Settings {
    Settings {
        hysteresis: 10,
        on_delay,
        off_delay,
        low_acting,
        latched,
    }
}

// The bench meter with 16 points on a curve that bends at each, four alarms of several kinds with delays, a capture time, and every line
// printed.
fn cost_config() -> Config {
    let bench = config::bench();
    Config {
        scale: Scale {
            source: Source::Points,
            step: 5,
            count: 16,
            inputs: [
                0, 1000, 2000, 3000, 4000, 5000, 6000, 7000, 8000, 9000, 10000, 11000, 12000,
                13000, 14000, 15000,
            ],
            displays: [
                0, 40, 150, 330, 580, 900, 1280, 1720, 2210, 2740, 3300, 3870, 4430, 4970, 5480,
                6000,
            ],
        },
        working: Working {
            totalizer: Totalizer {
                low_cut: 0,
                ..bench.working.totalizer
            },
            capture: 1,
            alarms: [
                alarm(1, 1, false, false),
                alarm(2, 2, false, false),
                alarm(1, 0, false, true),
                alarm(1, 1, true, false),
            ],
            analog: Analog { low: 0, high: 6000 },
        },
        talking: Talking {
            print: register::Print {
                input: true,
                extremes: true,
                total: true,
                setpoints: true,
            },
            ..bench.talking
        },
        setpoints: [1000, 3000, 5000, 200],
    }
}

// The same with a platinum sensor.
fn sensor_config() -> Config {
    let c = cost_config();
    Config {
        scale: Scale {
            source: Source::Platinum,
            ..c.scale
        },
        ..c
    }
}

// ---- the events
//
// Each loop has one event before it, so that every call stands at two places: the compiler then makes a function of it, as in a program
// that calls it at many, and a turn of the loop adds the call, its arguments and the count, and no copy of the meter.

// One input in each of the 15 segments, down by every second one and up by the others, and at the top one beyond the last point. In
// each round every alarm that is not latched goes on and off.
const INPUTS: [i32; 16] = [
    7500, 5500, 3500, 1500, 500, 2500, 4500, 6500, 8500, 10500, 12500, 14500, 16000, 13500, 11500,
    9500,
];

// The resistances that read the same by the sensor, so that what is made of a reading is the same.
const OHMS: [i32; 16] = [
    174568, 141914, 117663, 103708, 100781, 109347, 128605, 157325, 193193, 232691, 270933, 305309,
    330271, 288443, 252248, 212764,
];

// The place that follows in a list that is gone through by turns.
fn following(at: usize, size: usize) -> usize
    requires { at < size }
    ensures { result < size }
{
    if at + 1 < size { at + 1 } else { 0 }
}

fn mixed_samples(m: Meter, inputs: &[i32; 16], times: u64) -> Outcome {
    let mut o = m.sample(inputs[0]);
    let mut at = 0;
    for _ in 1..times {
        at = following(at, 16);
        o = o.meter.sample(inputs[at]);
    }
    o
}

fn samples(m: Meter, input: i32, times: u64) -> Outcome {
    let mut o = m.sample(input);
    for _ in 1..times {
        o = o.meter.sample(input);
    }
    o
}

fn keys(m: Meter, number: i32, buffer: &mut [u8], times: u64) -> Outcome {
    let mut o = m.key(number, buffer, 0);
    for _ in 1..times {
        o = o.meter.key(number, buffer, 0);
    }
    o
}

fn bytes(m: Meter, list: &[u8], buffer: &mut [u8], times: u64) -> Outcome
    requires { 0 < length list.now }
{
    let mut o = m.byte(list[0], buffer, 0);
    let mut at = 0;
    for _ in 1..times {
        at = following(at, list.len());
        o = o.meter.byte(list[at], buffer, 0);
    }
    o
}

// How many inputs are read at once in bulk: eight rounds.
const ROUNDS: usize = 128;

// So many inputs, one in each segment by turns.
fn by_turns(inputs: &[i32; 16]) -> [i32; ROUNDS] {
    array::from_fn(|i| inputs[i % 16])
}

// Read in bulk as often as they go into a number, and once at least.
fn bulk_readings(m: Meter, inputs: &[i32], readings: &mut [i32], times: u64) -> Answer {
    let scale = m.config.scale;
    let mut answer = bulk::read_all(scale, inputs, readings);
    for _ in 0..times.saturating_sub(1) / ROUNDS as u64 {
        answer = bulk::read_all(scale, inputs, readings);
    }
    answer
}

// A meter that has had one round of samples, so that it has a reading, a total, a max and a min to show.
fn after_a_round(config: Config, inputs: &[i32; 16]) -> Meter {
    mixed_samples(Meter::power_up(config).meter, inputs, 16).meter
}

fn started() -> Meter {
    after_a_round(cost_config(), &INPUTS)
}

fn sensor_started() -> Meter {
    after_a_round(sensor_config(), &OHMS)
}

fn not_started() -> Meter {
    Meter::power_up(config::nothing()).meter
}

// ---- what is printed

// The first n bytes of the buffer, of which there are as many.
fn put_reply(to: Stdout, buffer: &[u8], n: usize) {
    if n <= buffer.len() {
        let _ = to.write_all(&buffer[0..n]);
    }
}

// An answer's number and what it carries, and after a 2 the reply itself.
fn put_answer(to: Stdout, a: Answer, buffer: &[u8]) {
    let _ = to.print(answer::number(a));
    let _ = to.write_all(b" ");
    let _ = to.print(answer::value(a));
    let _ = to.write_all(b"\n");
    if let Answer::Replied(n) = a {
        put_reply(to, buffer, n);
    }
}

// What the last event was answered, and the block that the meter then prints.
fn put_outcome(to: Stdout, o: Outcome, buffer: &mut [u8]) {
    put_answer(to, o.answer, buffer);
    let printed = o.meter.key(6, buffer, 0).answer;
    put_answer(to, printed, buffer);
}

// A reading of these inputs, of which none lies below zero.
fn put_reading(to: Stdout, n: i32) {
    if n < 0 {
        let _ = to.write_all(b" -");
    } else {
        let _ = to.write_all(b" ");
        let _ = to.print(n as u64);
    }
}

// What reading in bulk was answered, and a round of the readings.
fn put_readings(to: Stdout, a: Answer, readings: &[i32; ROUNDS]) {
    let _ = to.print(answer::number(a));
    for reading in &readings[..16] {
        put_reading(to, *reading);
    }
    let _ = to.write_all(b"\n");
}

fn put_unknown(to: Stdout) {
    let _ = to.write_all(b"?\n");
}

// ---- the lines

// S, N and K, which have a number.
fn numbered(to: Stdout, letter: u8, times: u64, number: i32, buffer: &mut [u8]) {
    match letter {
        b'S' => put_outcome(to, samples(started(), number, times), buffer),
        b'N' => put_outcome(to, samples(not_started(), number, times), buffer),
        b'K' => {
            let o = keys(started(), number, buffer, times);
            put_outcome(to, o, buffer);
        }
        _ => put_unknown(to),
    }
}

fn with_number(to: Stdout, letter: u8, times: u64, number: Option<i32>, buffer: &mut [u8]) {
    match number {
        Some(v) => numbered(to, letter, times, v, buffer),
        None => put_unknown(to),
    }
}

// B, which has at least one byte.
fn with_bytes(to: Stdout, times: u64, list: &[u8], buffer: &mut [u8]) {
    if list.is_empty() {
        put_unknown(to);
        return;
    }
    let o = bytes(started(), list, buffer, times);
    put_outcome(to, o, buffer);
}

// R and O, whose readings are in no meter.
fn in_bulk(to: Stdout, m: Meter, round: &[i32; 16], times: u64) {
    let inputs = by_turns(round);
    let mut readings = [0; ROUNDS];
    let a = bulk_readings(m, &inputs, &mut readings, times);
    put_readings(to, a, &readings);
}

// The events of a letter, with what stands behind their number.
fn events(to: Stdout, letter: u8, times: u64, rest: &[u8]) {
    let mut buffer = [0u8; 163];
    match letter {
        b'M' => put_outcome(to, mixed_samples(started(), &INPUTS, times), &mut buffer),
        b'B' => with_bytes(to, times, rest, &mut buffer),
        b'R' => in_bulk(to, started(), &INPUTS, times),
        b'P' => put_outcome(
            to,
            mixed_samples(sensor_started(), &OHMS, times),
            &mut buffer,
        ),
        b'O' => in_bulk(to, sensor_started(), &OHMS, times),
        _ => with_number(to, letter, times, text::read_number(rest), &mut buffer),
    }
}

fn counted(to: Stdout, letter: u8, times: Option<u64>, rest: &[u8]) {
    match times {
        Some(n) => events(to, letter, n, rest),
        None => put_unknown(to),
    }
}

// A line, as its bytes without the LF.
fn carried_out(to: Stdout, s: &[u8]) {
    if s.len() < 3 {
        put_unknown(to);
        return;
    }
    let end = text::word_end(s, 2);
    let times = text::read_natural(19, &s[2..end]);
    if end < s.len() {
        let next = end + 1;
        counted(to, s[0], times, &s[next..]);
    } else {
        counted(to, s[0], times, &s[end..]);
    }
}

// The lines of a block, each where it has ended. One that is too long is no line of this program.
#[tactic(auto, using(text::proofs::Laws::ahead))]
fn lines(to: Stdout, block: &[u8]) {
    let mut line = Line::new();
    let mut at = 0;
    // a turn goes on by as many bytes as a line used
    while at < block.len() {
        let step = line.feed(&block[at..]);
        at += step.used;
        if step.ended {
            if let Some(s) = line.text() {
                carried_out(to, s);
            }
            line.clear();
        }
    }
}

// Reads on until the block is full, the input ends or a read fails. Answers how many bytes came.
fn filled(mut input: Stdin, block: &mut [u8]) -> usize
    ensures { result ≤ length block.new }
{
    let mut n = 0;
    // a turn goes on by as many bytes as came
    while n < block.len() {
        let came = input.read(&mut block[n..]).unwrap_or(0);
        if came == 0 {
            break;
        }
        n += came;
    }
    n
}

fn main(rt: HostRuntime) {
    let mut block = [0u8; 4096];
    let n = filled(rt.stdin(), &mut block);
    lines(rt.stdout(), &block[..n]);
}
