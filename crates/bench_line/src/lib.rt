// The lines of the bench program: what a line says, and what is printed of what it is told.
#![tactic(auto)]

pub mod grammar;

ghost use Rattle.std.specs.Prelude.{◌≡◌};
ghost use Rattle.text.specs.Output.{waiting, puts};
ghost use Rattle.bench_line.specs.Show.{number_line, reply_pieces, answer_pieces, shown_of};

use answer::Answer;
use text::output::Out;

// Puts a number and an LF.
fn put_number(out: &mut Out, n: u64)
    ensures { waiting out.new ≡ puts (waiting out.old) (number_line n) }
{
    out.put_natural(n);
    out.put(b"\n");
}

// Puts the first n bytes of the reply, of which there are as many.
fn put_reply(out: &mut Out, reply: &[u8], n: usize)
    ensures { waiting out.new ≡ puts (waiting out.old) (reply_pieces n reply.now) }
{
    if n <= reply.len() {
        out.put(&reply[..n]);
    }
}

fn put_answer(out: &mut Out, reply: &[u8], a: Answer)
    ensures { waiting out.new ≡ puts (waiting out.old) (answer_pieces a reply.now) }
{
    let number = answer::number(a);
    put_number(out, number);
    if number == 2 {
        put_reply(out, reply, answer::value(a) as usize);
    }
}

// The answer of a line's last event, or that it is no line of this program.
pub fn put_said(out: &mut Out, reply: &[u8], said: Option<Answer>)
    ensures { waiting out.new ≡ puts (waiting out.old) (shown_of said reply.now) }
{
    match said {
        Some(a) => put_answer(out, reply, a),
        None => out.put(b"?\n"),
    }
}
