// What a line of the bench program says.
#![tactic(auto)]

ghost use Rattle.std.specs.Prelude.{◌≡◌, ℕ, List, Some};
ghost use Rattle.text.specs.Line.{heard};
ghost use Rattle.bench_line.specs.Grammar.{chars, said_of, parsed, judged, Payload};
ghost use Rattle.bench_line.specs.Asked.{asked};

use text::Line;

// Bytes has those behind the letter and the space, of which there are 1 to 80.
#[derive(Clone, Copy)]
pub enum Parsed<'a> {
    Sample(i32),
    Key(i32),
    Bytes(&'a [u8]),
}

// What a line with the letter k and the bytes s after the space says.
fn said(k: u8, s: &[u8]) -> Option<Parsed>
    ensures { asked result ≡ said_of k s.now }
{
    match k {
        b'S' => Some(Parsed::Sample(text::read_number(s)?)),
        b'K' => Some(Parsed::Key(text::read_number(s)?)),
        b'C' => Some(Parsed::Bytes(s)),
        _ => None,
    }
}

// A line, as its bytes without the LF.
fn parse(s: &[u8]) -> Option<Parsed>
    ensures { asked result ≡ parsed s.now }
{
    if (3..=82).contains(&s.len()) && s[1] == b' ' {
        said(s[0], &s[2..])
    } else {
        None
    }
}

// A line that is too long says nothing.
pub fn judge(line: &Line) -> Option<Parsed>
    ensures value { asked result ≡ judged (heard line.now) }
    ensures payload { (s : List ℕ) → asked result ≡ Some (chars s) → Payload s }
{
    parse(line.text()?)
}
