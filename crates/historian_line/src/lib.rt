// The lines of the historian's program: what each asks, and what is printed of it.
#![tactic(auto)]

ghost use Rattle.std.specs.Prelude.{◌≡◌, true};
ghost use Rattle.text.specs.Line.{heard};
ghost use Rattle.text.specs.Output.{waiting, puts};
ghost use Rattle.filed.specs.Filed.{has_bits, has_bits_in, kind_of, bits_of};
ghost use Rattle.historian_line.specs.Line.{unknown, reading_named, record_line, asked_line, write_line, kind_pieces, bits_pieces, fields_line, taken_line, read_line, by_letter, line_shown, heard_shown};

use filed::{Record, Refusal};
use hexadecimal::{MOST, put_hex, read_hex};
use reading::Reading;
use text::Line;
use text::output::Out;

// Any other line than those that are known.
#[tactic(auto, unfolding(text::specs::Output::puts))]
fn put_unknown(out: &mut Out)
    ensures { waiting out.new ≡ puts (waiting out.old) unknown }
{
    out.put(b"?\n");
}

// ---- W

// The reading that a word names.
#[tactic(auto, unfolding(crate::specs::Line::reading_named))]
fn reading_named(word: &[u8]) -> Option<Reading>
    ensures { result ≡ reading_named word.now }
{
    match word {
        b"OL" => Some(Reading::Over),
        b"UL" => Some(Reading::Under),
        b"--" => Some(Reading::Nothing),
        _ => text::read_number(word).map(Reading::Number),
    }
}

// The record of a reading, which the writer refuses where there is none.
fn put_record(out: &mut Out, reading: Reading, places: i32)
    ensures { waiting out.new ≡ puts (waiting out.old) (record_line reading places) }
{
    let mut record = [0u8; 8];
    match filing::write(reading, places, &mut record, 0) {
        Ok(_) => {
            put_hex(out, &record);
            out.put(b"\n");
        }
        Err(_) => put_unknown(out),
    }
}

fn put_asked(out: &mut Out, reading: Option<Reading>, places: Option<i32>)
    ensures { waiting out.new ≡ puts (waiting out.old) (asked_line reading places) }
{
    match (reading, places) {
        (Some(reading), Some(places)) => put_record(out, reading, places),
        _ => put_unknown(out),
    }
}

// What stands behind `W` and its space: two words.
fn put_write(out: &mut Out, s: &[u8])
    ensures { waiting out.new ≡ puts (waiting out.old) (write_line s.now) }
{
    let end = text::word_end(s, 0);
    if end < s.len() {
        let reading = reading_named(&s[..end]);
        let places = text::read_number(&s[end + 1..]);
        put_asked(out, reading, places);
    } else {
        put_unknown(out);
    }
}

// ---- R

// Kind and places, with a space behind each.
#[tactic(auto, unfolding(text::specs::Output::puts))]
fn put_kind(out: &mut Out, kind: u8, places: u8)
    ensures { waiting out.new ≡ puts (waiting out.old) (kind_pieces kind places) }
{
    out.put_natural(u64::from(kind));
    out.put(b" ");
    out.put_natural(u64::from(places));
    out.put(b" ");
}

// The bits, as a number is written.
#[tactic(auto, using(crate::proofs::Ended::line_end))]
fn put_bits(out: &mut Out, bits: u32)
    ensures { waiting out.new ≡ puts (waiting out.old) (bits_pieces bits) }
{
    put_hex(out, &bits.to_be_bytes());
    out.put(b"\n");
}

// Kind, places and bits.
fn put_fields(out: &mut Out, kind: u8, places: u8, bits: u32)
    ensures { waiting out.new ≡ puts (waiting out.old) (fields_line kind places bits) }
{
    put_kind(out, kind, places);
    put_bits(out, bits);
}

// What a record says. A value is shown by its bits, which a number has.
fn put_said(out: &mut Out, said: Record)
    requires { has_bits said.datum ≡ true }
    ensures { waiting out.new ≡ puts (waiting out.old) (fields_line (kind_of said.datum) said.places (bits_of said.datum)) }
{
    let (kind, bits) = filing::kind_and_bits(said.datum);
    put_fields(out, kind, said.places, bits);
}

// What bytes were taken for.
#[tactic(auto, unfolding(crate::specs::Line::taken_line))]
fn put_taken(out: &mut Out, taken: Result<Record, Refusal>)
    requires { has_bits_in taken ≡ true }
    ensures { waiting out.new ≡ puts (waiting out.old) (taken_line taken) }
{
    match taken {
        Ok(said) => put_said(out, said),
        Err(why) => {
            out.put_natural(filing::number(why));
            out.put(b"\n");
        }
    }
}

// What stands behind `R` and its space: bytes in hexadecimal.
fn put_read(out: &mut Out, s: &[u8])
    ensures { waiting out.new ≡ puts (waiting out.old) (read_line s.now) }
{
    let mut bytes = [0u8; MOST];
    match read_hex(s, &mut bytes) {
        Some(n) => put_taken(out, filing::read(&bytes[..n])),
        None => put_unknown(out),
    }
}

// ---- a line

fn put_by_letter(out: &mut Out, letter: u8, s: &[u8])
    ensures { waiting out.new ≡ puts (waiting out.old) (by_letter letter s.now) }
{
    match letter {
        b'W' => put_write(out, s),
        b'R' => put_read(out, s),
        _ => put_unknown(out),
    }
}

// A line, as its bytes without the LF.
#[tactic(auto, unfolding(crate::specs::Line::line_shown))]
fn put_line(out: &mut Out, s: &[u8])
    ensures { waiting out.new ≡ puts (waiting out.old) (line_shown s.now) }
{
    if s.len() < 3 || s[1] != b' ' {
        put_unknown(out);
    } else {
        put_by_letter(out, s[0], &s[2..]);
    }
}

// A line that has ended, if it was kept.
#[tactic(auto, unfolding(crate::specs::Line::heard_shown))]
pub fn put_heard(out: &mut Out, line: &Line)
    ensures { waiting out.new ≡ puts (waiting out.old) (heard_shown (heard line.now)) }
{
    match line.text() {
        Some(s) => put_line(out, s),
        None => put_unknown(out),
    }
}
