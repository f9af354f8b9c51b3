// Block prints, written into the buffer that the caller lends.
#![tactic(auto)]

ghost use Rattle.std.specs.Prelude.{◌≡◌, ◌≤◌, length};
ghost use Rattle.register.specs.Registers.{at};
ghost use Rattle.line.specs.Buffer.{over, after, answer};
ghost use Rattle.line.specs.Line.{line_length};
ghost use Rattle.block.specs.Block.{order, wants, option_at, some, block, block_length};
ghost use Rattle.block.specs.Values.{value_at, places_of, value_line, Printable};

use line::Style;
use reading::Reading;
use register::{INP, MAX, MIN, Print, SP1, SP2, SP3, SP4, TOT};

// Decimal places: those of the input, which max, min and the setpoints have too, and those of the total.
#[derive(Clone, Copy)]
pub struct Places {
    pub input: usize,
    pub total: usize,
}

// What a block print shows.
#[derive(Clone, Copy)]
pub struct Values {
    pub places: Places,
    pub input: Reading,
    pub total: Reading,
    pub max: Reading,
    pub min: Reading,
    pub setpoints: [i32; 4],
}

// The registers of a block, in its order.
const ORDER: [usize; 8] = [INP, TOT, MAX, MIN, SP1, SP2, SP3, SP4];

impl Values {
    // What a register of the order shows.
    #[tactic(auto, unfolding(crate::specs::Values::value_at))]
    fn shown(&self, register: usize) -> Reading
        requires { register ≤ at "H" }
        ensures { result ≡ value_at self.now register }
    {
        match register {
            INP => self.input,
            TOT => self.total,
            MAX => self.max,
            MIN => self.min,
            _ => Reading::Number(self.setpoints[register - SP1]),
        }
    }

    // With how many decimal places.
    #[tactic(auto, unfolding(crate::specs::Values::places_of))]
    fn places_of(&self, register: usize) -> usize
        ensures { result ≡ places_of self.now register }
    {
        match register {
            TOT => self.places.total,
            _ => self.places.input,
        }
    }
}

// Whether a register of the order is chosen.
fn is_chosen(print: Print, register: usize) -> bool
    ensures { result ≡ wants print (option_at register) }
{
    match register {
        INP => print.input,
        TOT => print.total,
        MAX | MIN => print.extremes,
        _ => print.setpoints,
    }
}

// Whether any line is chosen.
fn any(print: Print) -> bool
    ensures { result ≡ some print order }
{
    print.input || print.total || print.extremes || print.setpoints
}

// The line of a register of the order, over the front of a tail that has room for it.
fn put_value(buf: &mut [u8], style: Style, register: usize, values: &Values)
    requires { Printable style values.now × (register ≤ at "H") × (line_length style ≤ length buf.old) }
    ensures { buf.new ≡ over buf.old (value_line style values.now register) }
{
    let places = values.places_of(register);
    let shown = values.shown(register);
    line::put_line(buf, style, register, places, shown);
}

// A block, over the front of a tail that has room for it: the chosen lines, each behind the one before it, and the end.
fn put_block(buf: &mut [u8], style: Style, print: Print, values: &Values)
    requires { Printable style values.now × (length (block print (value_line style values.now)) ≤ length buf.old) }
    ensures { buf.new ≡ over buf.old (block print (value_line style values.now)) }
{
    let mut at = 0;
    for register in ORDER {
        if is_chosen(print, register) {
            put_value(&mut buf[at..], style, register, values);
            at += line::line_length(style);
        }
    }
    if any(print) {
        line::put_text(&mut buf[at..], b" \r\n");
    }
}

// How long a block is: max and min are chosen together, and so are the four setpoints.
fn block_length(style: Style, print: Print) -> usize
    ensures { result ≡ block_length print (line_length style) }
{
    let lines = usize::from(print.input)
        + usize::from(print.total)
        + 2 * usize::from(print.extremes)
        + 4 * usize::from(print.setpoints);
    lines * line::line_length(style) + 3 * usize::from(any(print))
}

// A block print as a whole reply, from a place on. The answer is how many bytes were written, or None: it had no room, and nothing was.
pub fn write_block(
    buf: &mut [u8],
    place: usize,
    style: Style,
    print: Print,
    values: Values,
) -> Option<usize>
    requires { Printable style values }
    ensures { (result ≡ answer buf.old place (block print (value_line style values))) × (buf.new ≡ after buf.old place (block print (value_line style values))) }
{
    let bytes = block_length(style, print);
    line::write_whole(buf, place, bytes, |tail| {
        put_block(tail, style, print, &values)
    })?;
    Some(bytes)
}
