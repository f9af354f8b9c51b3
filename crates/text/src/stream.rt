// A program over standard input: it hears one line after another. Standard input is read in blocks, so the memory is the same for any
// input.
ghost use Rattle.std.specs.Prelude.{◌≤◌, ◌≡◌, Bool, length, take};
ghost use Rattle.text.specs.Line.{Heard, heard, goes_on, Carried, Turned, Streamed, finished};

use crate::Line;
use std::io::{Read, Stdin};

// What hears lines.
pub trait Hears {
    // What goes on from line to line, and where a program stands.
    ghost Stand: { Type 0 };

    ghost standing: { Self → Stand };

    // What a line makes of it.
    ghost heard_by: { Stand → Heard → Stand };

    // Whether every write so far took all its bytes.
    ghost writes: { Self → Bool };

    // A line that has ended.
    fn hear(&mut self, line: &Line)
        ensures { standing self.new ≡ heard_by (standing self.old) (heard line.now) };

    fn is_writing(&self) -> bool
        ensures { result ≡ writes self.now };
}

// The lines that a block ends, and the start of the one that it leaves open.
fn lines<H: Hears>(program: &mut H, line: &mut Line, block: &[u8])
    ensures { Carried H.heard_by block.now line.old (H.standing program.old) (H.standing program.new) line.new }
{
    let mut at = 0;
    // a turn goes on by as many bytes as a line used, which no iterator over a slice does
    while at < block.len() {
        let step = line.feed(&block[at..]);
        at += step.used;
        if step.ended {
            program.hear(line);
            line.clear();
        }
    }
}

// What came, the first n bytes of a block, and whether the input goes on: where nothing came it has ended, and where a write failed it is
// read no further.
fn came<H: Hears>(program: &mut H, line: &mut Line, block: &[u8], n: usize) -> bool
    requires { n ≤ length block.now }
    ensures carried { Carried H.heard_by (take n block.now) line.old (H.standing program.old) (H.standing program.new) line.new }
    ensures more { result ≡ goes_on n (H.writes program.new) }
{
    if n == 0 {
        return false;
    }
    lines(program, line, &block[..n]);
    program.is_writing()
}

// Reads once, and does what came. A read that fails gives nothing.
fn one_turn<H: Hears>(program: &mut H, line: &mut Line, input: &mut Stdin, block: &mut [u8]) -> bool
    ensures { Turned H.heard_by block.new line.old (H.standing program.old) (H.standing program.new) line.new }
{
    let n = input.read(block).unwrap_or(0);
    came(program, line, block, n)
}

// A last line that no LF ends counts, where it has a byte.
pub fn end<H: Hears>(program: &mut H, line: &Line)
    ensures { H.standing program.new ≡ finished H.heard_by (H.standing program.old) line.now }
{
    if line.len > 0 {
        program.hear(line);
    }
}

// The whole of standard input, whatever it is, but for a last line that no LF ends, which is left open. A proved loop has to end, and nothing
// says that the input does. So the turns are counted, up to a number that no run uses up: at a turn each nanosecond it would take more than
// five hundred years.
pub fn run<H: Hears>(program: &mut H, line: &mut Line, mut input: Stdin)
    ensures { Streamed H.heard_by line.old (H.standing program.old) (H.standing program.new) line.new }
{
    let mut block = io::large_buffer();
    for _ in 0..u64::MAX {
        if !one_turn(program, line, &mut input, &mut block) {
            break;
        }
    }
}
