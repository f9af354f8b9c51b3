// The register strings: what a string asks, and of which node.
// Which registers there are, which command takes which and within which limits is said by crate `register` alone.
#![tactic(auto)]

ghost use Rattle.std.specs.Prelude.{◌≡◌, ◌<◌, ◌≤◌, take};
ghost use Rattle.numeral.specs.Number.{number};
ghost use Rattle.command.specs.Parse.{sole, reading, resetting, printing, status, write_to, data_of, writing, body, second_digit, first_digit, parse};

use numeral::Number;
use register::{Limits, Writes};

// What a string asks: T reads a register, P prints a block, R resets a register, V writes a number that the register holds, or a byte to J.
// A register is given by its place in the table. BadForm stands among them, since document 01 answers it for a node as it does the others.
#[derive(Clone, Copy)]
pub enum Asked {
    Read(usize),
    Print,
    Reset(usize),
    Write(usize, i32),
    Status(u8),
    BadForm,
}

// The register of T and R, whose letter is all that stands there: its place, and past the table's end for anything else, where the table
// says of a register that no command takes it. So nobody has to ask whether there is one.
fn sole_register(s: &[u8]) -> usize
    ensures { result ≡ sole s.now }
{
    match s {
        [letter] => register::index_of(*letter),
        _ => register::COUNT,
    }
}

// Behind T: one register. R is told the same way; the two differ in the field that is asked and in what comes of it, and a function of both
// would take these two and say no less.
fn read(s: &[u8]) -> Asked
    ensures { result ≡ reading s.now }
{
    let i = sole_register(s);
    if register::register_at(i).read {
        Asked::Read(i)
    } else {
        Asked::BadForm
    }
}

// Behind R: one register.
fn reset(s: &[u8]) -> Asked
    ensures { result ≡ resetting s.now }
{
    let i = sole_register(s);
    if register::register_at(i).reset {
        Asked::Reset(i)
    } else {
        Asked::BadForm
    }
}

// Behind P: nothing.
fn print(s: &[u8]) -> Asked
    ensures { result ≡ printing s.now }
{
    if s.is_empty() {
        Asked::Print
    } else {
        Asked::BadForm
    }
}

// Behind VJ: one byte of 0 to 127.
fn status(s: &[u8]) -> Asked
    ensures { result ≡ status s.now }
{
    match s {
        [b @ 0..=127] => Asked::Status(*b),
        _ => Asked::BadForm,
    }
}

// V of a number: itself, or the limit that it was held to.
fn write_number(i: usize, limits: Limits, s: &[u8]) -> Asked
    ensures { result ≡ write_to i (number limits s.now) }
{
    match numeral::number_of(limits, s) {
        Number::Is(z) | Number::Held(z) => Asked::Write(i, z),
        Number::NoNumber => Asked::BadForm,
    }
}

// The data of V, by what the table says of the register.
fn data_of(i: usize, written: Writes, s: &[u8]) -> Asked
    ensures { result ≡ data_of i written s.now }
{
    match written {
        Writes::Nothing => Asked::BadForm,
        Writes::Number(limits) => write_number(i, limits, s),
        Writes::Byte => status(s),
    }
}

// Behind V: a register and its data.
fn write(s: &[u8]) -> Asked
    ensures { result ≡ writing s.now }
{
    match s {
        [letter, data @ ..] => {
            let i = register::index_of(*letter);
            data_of(i, register::written_at(i), data)
        }
        _ => Asked::BadForm,
    }
}

// What stands behind the address: command, register, data.
fn body(s: &[u8]) -> Asked
    ensures { result ≡ body s.now }
{
    match s {
        [b'T', rest @ ..] => read(rest),
        [b'V', rest @ ..] => write(rest),
        [b'R', rest @ ..] => reset(rest),
        [b'P', rest @ ..] => print(rest),
        _ => Asked::BadForm,
    }
}

// Behind N and a digit: a second digit, if one stands there.
fn second_digit(d: u8, s: &[u8]) -> Option<(u8, Asked)>
    requires { d < 10 }
    ensures { result ≡ second_digit d s.now }
{
    match s {
        [b @ b'0'..=b'9', rest @ ..] => Some((10 * d + (*b - b'0'), body(rest))),
        _ => Some((d, body(s))),
    }
}

// Behind N: one or two digits.
fn first_digit(s: &[u8]) -> Option<(u8, Asked)>
    ensures { result ≡ first_digit s.now }
{
    match s {
        [b @ b'0'..=b'9', rest @ ..] => second_digit(*b - b'0', rest),
        _ => None,
    }
}

// A string, without the byte that ends it: for which node, and what is asked of it. None: an N with no digit.
pub fn parse(s: &[u8]) -> Option<(u8, Asked)>
    ensures { result ≡ parse s.now }
{
    match s {
        [b'N', rest @ ..] => first_digit(rest),
        _ => Some((0, body(s))),
    }
}

// The string that a receiver holds, where it stands: the first bytes of its room, as many as its length says.
pub fn parse_held(held: &[u8; 32], length: usize) -> Option<(u8, Asked)>
    requires { length ≤ 32 }
    ensures { result ≡ parse (take length held.now) }
{
    parse(&held[..length])
}
