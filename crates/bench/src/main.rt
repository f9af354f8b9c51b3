// Document 01's bench program: lines `S number`, `K number` and `C bytes` from standard input drive one meter, and for each line the
// answer of its last event is printed, after a 2 the reply itself, and `?` for any other line.
//
// Standard input is read in blocks, and standard output written in blocks, so the memory is the same for any input.
#![tactic(auto)]

ghost use Rattle.std.specs.Prelude.{ℕ, ◌<◌, ◌≡◌, List, length};
ghost use Rattle.text.specs.Line.{heard};
ghost use Rattle.text.specs.Output.{waiting};
ghost use Rattle.bench.specs.Bench.{Stand, key_step, byte_step, bytes_step, effect, program_after, standing, heard_by, printed_of};

use answer::Answer;
use bench_line::grammar::Parsed;
use meter::{Meter, Outcome};
use std::io::{Stdin, Stdout};
use text::Line;
use text::output::Out;
use text::stream::Hears;

// What goes on from line to line: the meter, its reply, and the output.
#[derive(Drop)]
struct Program<'a> {
    meter: Meter,
    reply: [u8; 163],
    out: Out<'a>,
}

fn key(m: Meter, number: i32, reply: &mut [u8]) -> Outcome
    ensures value { result ≡ (key_step m number reply.old).outcome }
    ensures reply_after { reply.new ≡ (key_step m number reply.old).buffer }
{
    m.key(number, reply, 0)
}

fn byte(m: Meter, b: u8, reply: &mut [u8]) -> Outcome
    ensures value { result ≡ (byte_step m b reply.old).outcome }
    ensures reply_after { reply.new ≡ (byte_step m b reply.old).buffer }
{
    m.byte(b, reply, 0)
}

// Bytes one after another; the last one's answer counts.
fn all_bytes(m: Meter, s: &[u8], reply: &mut [u8]) -> Outcome
    requires { 0 < length s.now }
    ensures value { result ≡ (bytes_step m s.now reply.old).outcome }
    ensures reply_after { reply.new ≡ (bytes_step m s.now reply.old).buffer }
{
    let mut o = byte(m, s[0], reply);
    for b in &s[1..] {
        o = byte(o.meter, *b, reply);
    }
    o
}

impl<'a> Program<'a> {
    // A whole line: the answer of its last event. A line that is none of this program has no event.
    fn event(&mut self, line: &Line) -> Option<Answer>
        ensures value { result ≡ (effect self.old.meter self.old.reply (heard line.now)).said }
        ensures program_after { self.new ≡ program_after self.old (effect self.old.meter self.old.reply (heard line.now)) }
    {
        let outcome = match bench_line::grammar::judge(line)? {
            Parsed::Sample(v) => self.meter.sample(v),
            Parsed::Key(v) => key(self.meter, v, &mut self.reply),
            Parsed::Bytes(s) => all_bytes(self.meter, s, &mut self.reply),
        };
        self.meter = outcome.meter;
        Some(outcome.answer)
    }
}

impl<'a> Hears for Program<'a> {
    ghost Stand = { Stand };

    ghost standing = { standing };

    ghost heard_by = { heard_by };

    ghost writes = { λ program. program.out.pending.ok };

    // A line that has ended: its event, and what it is told.
    fn hear(&mut self, line: &Line) {
        let said = self.event(line);
        bench_line::put_said(&mut self.out, &self.reply, said);
    }

    fn is_writing(&self) -> bool {
        self.out.is_ok()
    }
}

// The bench meter over the whole of standard input, whatever it is: what waits is what is printed of all its lines.
fn played<'a>(input: Stdin, to: Stdout, buf: &'a mut [u8]) -> Program<'a>
    ensures { (stream : List ℕ) × (waiting result.out ≡ printed_of buf.entry stream) }
{
    let mut program = Program {
        meter: Meter::power_up(config::bench()).meter,
        reply: [0; 163],
        out: Out::new(buf, to),
    };
    let mut line = Line::new();
    text::stream::run(&mut program, &mut line, input);
    text::stream::end(&mut program, &line);
    program
}

fn main(rt: HostRuntime) {
    let mut buf = io::large_buffer();
    let mut program = played(rt.stdin(), rt.stdout(), &mut buf);
    program.out.flush();
    if !program.out.is_ok() {
        let _ = rt.stderr().write_all(b"a write failed\n");
    }
}
