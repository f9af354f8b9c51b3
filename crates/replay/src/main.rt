// Any recorded history carried out again: each line of standard input is a configuration, a sample, a key or a received byte, and for
// each one line is printed that shows the answer, the whole state of the meter and the reply buffer. `?` stands for any other line,
// which changes nothing. The crate `record` has the lines, `show` what is printed.
//
// Standard input is read in blocks, and standard output written in blocks, so the memory is the same for any input.
#![tactic(auto, using(record::proofs::Meaning::configured), unfolding(text::specs::Output::puts, crate::specs::Replay::filled, crate::specs::Replay::power_step, crate::specs::Replay::sample_step, crate::specs::Replay::key_step, crate::specs::Replay::byte_step, crate::specs::Replay::effect, crate::specs::Replay::shown_of, crate::specs::Replay::heard_by))]

ghost use Rattle.std.specs.Prelude.{ℕ, ◌≡◌, List, true};
ghost use Rattle.text.specs.Line.{heard};
ghost use Rattle.text.specs.Output.{waiting};
ghost use Rattle.meter.specs.Meter.{step};
ghost use Rattle.record.specs.Configuration.{config_of};
ghost use Rattle.replay.specs.Replay.{power_step, powered, answered, Stand, standing, stand_after, heard_by, begun, printed_of};

use meter::{Meter, Outcome};
use record::{Event, WORDS};
use show::UNWRITTEN;
use std::io::{Stdin, Stdout};
use text::Line;
use text::output::Out;
use text::stream::Hears;

// How many bytes the reply buffer has.
const ROOM: usize = 170;

// What goes on from line to line: the meter, the words of a configuration, the reply buffer, and the output.
#[derive(Drop)]
struct Program<'a> {
    meter: Meter,
    settings: [i32; WORDS],
    buffer: [u8; ROOM],
    out: Out<'a>,
}

impl<'a> Program<'a> {
    // A meter not started, and nothing that waits; no write has failed.
    fn new(buf: &'a mut [u8], to: Stdout) -> Program<'a>
        ensures stand { standing result ≡ begun buf.entry }
        ensures is_ok { result.out.pending.ok ≡ true }
        ensures stream { result.out.pending.to ≡ to }
    {
        Program {
            meter: Meter::power_up(config::nothing()).meter,
            settings: [0; WORDS],
            buffer: [UNWRITTEN; ROOM],
            out: Out::new(buf, to),
        }
    }

    // A new meter of the settings, with nothing written in its buffer.
    fn power_up(&mut self)
        ensures { standing self.new ≡ stand_after (waiting self.old.out) (powered (power_step (config_of self.old.settings) self.old.buffer)) }
    {
        let outcome = Meter::power_up(record::config_of(&self.settings));
        self.meter = outcome.meter;
        self.buffer.fill(UNWRITTEN);
        show::put_power_up(&mut self.out, outcome.answer);
    }

    // What an event of the meter leads to.
    fn answer(&mut self, outcome: Outcome)
        ensures { standing self.new ≡ stand_after (waiting self.old.out) (answered (step outcome.answer outcome.meter self.old.buffer)) }
    {
        self.meter = outcome.meter;
        show::put_event(&mut self.out, outcome.answer, &self.meter, &self.buffer);
    }
}

impl<'a> Hears for Program<'a> {
    ghost Stand = { Stand };

    ghost standing = { standing };

    ghost heard_by = { heard_by };

    ghost writes = { λ program. program.out.pending.ok };

    fn hear(&mut self, line: &Line) {
        match record::judge(line, &mut self.settings) {
            None => self.out.put(b"?\n"),
            Some(Event::Configuration) => self.power_up(),
            Some(Event::Sample(n)) => {
                let outcome = self.meter.sample(n);
                self.answer(outcome);
            }
            Some(Event::Key(n, place)) => {
                let outcome = self.meter.key(n, &mut self.buffer, place);
                self.answer(outcome);
            }
            Some(Event::Byte(b, place)) => {
                let outcome = self.meter.byte(b, &mut self.buffer, place);
                self.answer(outcome);
            }
        }
    }

    fn is_writing(&self) -> bool {
        self.out.is_ok()
    }
}

// The whole of standard input, whatever it is: what waits is what is printed of all its lines.
fn played<'a>(input: Stdin, to: Stdout, buf: &'a mut [u8]) -> Program<'a>
    ensures { (stream : List ℕ) × (waiting result.out ≡ printed_of buf.entry stream) }
{
    let mut program = Program::new(buf, to);
    let mut line = Line::new();
    text::stream::run(&mut program, &mut line, input);
    text::stream::end(&mut program, &line);
    program
}

fn main(rt: HostRuntime) {
    let mut buf = io::large_buffer();
    let mut program = played(rt.stdin(), rt.stdout(), &mut buf);
    program.out.flush();
    if !program.out.is_ok() {
        let _ = rt.stderr().write_all(b"a write failed\n");
    }
}
