// Inputs read again by the scale of a configuration. The first line of standard input is `CFG ..` as in a recorded history, and is
// answered by its two numbers; every later line is one input, and its reading is printed: a number, `OL` or `UL`. `?` stands for any
// other line. A configuration that is refused is followed by nothing, and where the first line is none every line is `?`. The crate
// `rescaling` has the lines and what is printed of them.
//
// Standard input is read in blocks, and standard output written in blocks, so the memory is the same for any input.
#![tactic(auto)]

ghost use Rattle.std.specs.Prelude.{◌≡◌, List, ℕ};
ghost use Rattle.text.specs.Line.{heard};
ghost use Rattle.text.specs.Output.{waiting};
ghost use Rattle.rescaling.specs.Held.{opened};
ghost use Rattle.rescale.specs.Rescale.{Stand, standing, opened_at, heard_by, printed_of};

use record::WORDS;
use rescaling::Mode;
use std::io::{Stdin, Stdout};
use text::Line;
use text::output::Out;
use text::stream::Hears;

// What goes on from line to line: what the first line has made of the program, and the output. The settings have room for those of a
// configuration. A later line changes nothing but the output.
#[derive(Drop)]
struct Program<'a> {
    mode: Mode,
    settings: [i32; WORDS],
    out: Out<'a>,
}

impl<'a> Program<'a> {
    // The first line. It comes once and stands by itself, so that no later line makes room for what it needs.
    #[inline(never)]
    fn open(&mut self, line: &Line)
        ensures { standing self.new ≡ opened_at (waiting self.old.out) (opened (heard line.now)) }
    {
        let opened = rescaling::first(line, &mut self.settings);
        self.mode = opened.mode;
        rescaling::put_said(&mut self.out, opened.said);
    }
}

impl<'a> Hears for Program<'a> {
    ghost Stand = { Stand };

    ghost standing = { standing };

    ghost heard_by = { heard_by };

    ghost writes = { λ program. program.out.pending.ok };

    // The first line decides for all the others.
    fn hear(&mut self, line: &Line) {
        if rescaling::awaits(&self.mode) {
            self.open(line);
        } else {
            rescaling::put_said(&mut self.out, rescaling::told(&self.mode, line));
        }
    }

    fn is_writing(&self) -> bool {
        self.out.is_ok()
    }
}

// The whole of standard input, whatever it is: what waits is what is printed of all its lines, by the configuration.
fn rescaled<'a>(input: Stdin, to: Stdout, buf: &'a mut [u8]) -> Program<'a>
    ensures { (stream : List ℕ) × (waiting result.out ≡ printed_of buf.entry stream) }
{
    let mut program = Program {
        mode: Mode::Awaiting,
        settings: [0; WORDS],
        out: Out::new(buf, to),
    };
    let mut line = Line::new();
    text::stream::run(&mut program, &mut line, input);
    text::stream::end(&mut program, &line);
    program
}

fn main(rt: HostRuntime) {
    let mut buf = io::large_buffer();
    let mut program = rescaled(rt.stdin(), rt.stdout(), &mut buf);
    program.out.flush();
    if !program.out.is_ok() {
        let _ = rt.stderr().write_all(b"a write failed\n");
    }
}
