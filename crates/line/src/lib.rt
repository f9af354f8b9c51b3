// Reply lines, written into the buffer that the caller lends.
#![tactic(auto)]

ghost use Rattle.std.specs.Prelude.{◌≡◌, ◌≤◌, ◌<◌, ℕ, List, ◌++◌, Some, None, true, false, cond, length, take, drop};
ghost use Rattle.std.specs.Fn.{FnOnceReturnsAtMut};
ghost use Rattle.register.specs.Registers.{count};
ghost use Rattle.field.specs.Field.{field, Showable};
ghost use Rattle.line.specs.Buffer.{over, room, after, answer};
ghost use Rattle.line.specs.Line.{node_text, head, abbreviated_line, line, line_length, Writable};

use reading::Reading;

// How a meter's lines look: its node, and whether they are abbreviated.
#[derive(Clone, Copy)]
pub struct Style {
    pub node: u8,
    pub abbreviated: bool,
}

// Writes a text over the front of a buffer.
pub fn put_text(buf: &mut [u8], text: &[u8])
    requires { length text.now ≤ length buf.old }
    ensures { buf.new ≡ over buf.old text.now }
{
    buf[..text.len()].copy_from_slice(text);
}

// The data bytes, built in their place.
fn put_field(buf: &mut [u8], places: usize, shown: Reading)
    requires { Showable places shown × (12 ≤ length buf.old) }
    ensures { buf.new ≡ over buf.old (field places shown) }
{
    field::fill(&mut buf[..12], places, shown);
}

// Data, CR, LF.
fn put_data(buf: &mut [u8], places: usize, shown: Reading)
    requires { Showable places shown × (14 ≤ length buf.old) }
    ensures { buf.new ≡ over buf.old (abbreviated_line places shown) }
{
    put_field(buf, places, shown);
    put_text(&mut buf[12..], b"\r\n");
}

// Two digits of node, two spaces for node 0.
fn node_text(node: u8) -> [u8; 2]
    requires { node ≤ 99 }
    ensures { result ≡ node_text node }
{
    if node == 0 {
        *b"  "
    } else {
        [b'0' + node / 10, b'0' + node % 10]
    }
}

// Node, space, mnemonic.
fn put_head(buf: &mut [u8], node: u8, register: usize)
    requires { (node ≤ 99) × (register < count) × (6 ≤ length buf.old) }
    ensures { buf.new ≡ over buf.old (head node register) }
{
    put_text(buf, &node_text(node));
    put_text(&mut buf[2..], b" ");
    put_text(&mut buf[3..], &register::register_at(register).mnemonic);
}

// How long a line is.
pub fn line_length(style: Style) -> usize
    ensures { result ≡ line_length style }
{
    if style.abbreviated { 14 } else { 20 }
}

// A line, over the front of a tail that has room for it.
pub fn put_line(buf: &mut [u8], style: Style, register: usize, places: usize, shown: Reading)
    requires { Writable style register places shown × (line_length style ≤ length buf.old) }
    ensures { buf.new ≡ over buf.old (line style register places shown) }
{
    if style.abbreviated {
        put_data(buf, places, shown);
    } else {
        put_head(buf, style.node, register);
        put_data(&mut buf[6..], places, shown);
    }
}

// Whether a buffer of so many bytes has room for some from a place on. Nothing is added to the place, which is any number.
pub fn has_room(size: usize, place: usize, bytes: usize) -> bool
    ensures { result ≡ room size place bytes }
{
    place <= size && bytes <= size - place
}

// A reply of so many bytes, which `put` writes over the front of a tail, as a whole from a place on. The answer is how many bytes were
// written, or None: there was no room for it, and nothing was.
pub fn write_whole<F: FnOnce(&mut [u8])>(
    buf: &mut [u8],
    place: usize,
    bytes: usize,
    put: F,
) -> Option<usize>
    requires { (tail : _) → bytes ≤ length tail.now → F.pre put tail }
    ensures value { result ≡ cond (room (length buf.old) place bytes) (Some bytes) None }
    ensures written { room (length buf.old) place bytes ≡ true → (tail : List ℕ) × FnOnceReturnsAtMut F.FnOnce put (drop place buf.old) tt tail × (buf.new ≡ take place buf.old ++ tail) }
    ensures left { room (length buf.old) place bytes ≡ false → buf.new ≡ buf.old }
{
    if has_room(buf.len(), place, bytes) {
        put(&mut buf[place..]);
        return Some(bytes);
    }
    None
}

// One line as a whole reply, from a place on.
pub fn write_line(
    buf: &mut [u8],
    place: usize,
    style: Style,
    register: usize,
    places: usize,
    shown: Reading,
) -> Option<usize>
    requires { Writable style register places shown }
    ensures { (result ≡ answer buf.old place (line style register places shown)) × (buf.new ≡ after buf.old place (line style register places shown)) }
{
    let bytes = line_length(style);
    write_whole(buf, place, bytes, |tail| {
        put_line(tail, style, register, places, shown)
    })
}
