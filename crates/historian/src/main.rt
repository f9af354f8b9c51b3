// Readings for the plant historian. A line `W reading places` on standard input prints the record that is written of the reading, and `R hex`
// what bytes are taken for: kind, places and bits, or the number of a refusal. `?` stands for any other line. The crate `historian_line` has
// the lines and what is printed of them.
//
// Standard input is read in blocks, and standard output written in blocks, so the memory is the same for any input.
#![tactic(auto)]

ghost use Rattle.std.specs.Prelude.{ℕ, ◌≡◌, List};
ghost use Rattle.text.specs.Output.{Waiting, waiting};
ghost use Rattle.historian.specs.Historian.{standing, heard_by, printed_of};

use std::io::{Stdin, Stdout};
use text::Line;
use text::output::Out;
use text::stream::Hears;

// What goes on from line to line: the output alone.
#[derive(Drop)]
struct Program<'a> {
    out: Out<'a>,
}

impl<'a> Hears for Program<'a> {
    ghost Stand = { Waiting };

    ghost standing = { standing };

    ghost heard_by = { heard_by };

    ghost writes = { λ program. program.out.pending.ok };

    // A line that has ended: what is printed of it.
    #[tactic(auto, unfolding(crate::specs::Historian::heard_by))]
    fn hear(&mut self, line: &Line) {
        historian_line::put_heard(&mut self.out, line);
    }

    fn is_writing(&self) -> bool {
        self.out.is_ok()
    }
}

// The whole of standard input, whatever it is: what waits is what is printed of all its lines.
fn told<'a>(input: Stdin, to: Stdout, buf: &'a mut [u8]) -> Program<'a>
    ensures { (stream : List ℕ) × (waiting result.out ≡ printed_of buf.entry stream) }
{
    let mut program = Program {
        out: Out::new(buf, to),
    };
    let mut line = Line::new();
    text::stream::run(&mut program, &mut line, input);
    text::stream::end(&mut program, &line);
    program
}

fn main(rt: HostRuntime) {
    let mut buf = io::large_buffer();
    let mut program = told(rt.stdin(), rt.stdout(), &mut buf);
    program.out.flush();
    if !program.out.is_ok() {
        let _ = rt.stderr().write_all(b"a write failed\n");
    }
}
