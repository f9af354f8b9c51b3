// A reading given as the historian takes it, and the writer and the reader of its records.
#![tactic(auto)]

ghost use Rattle.std.specs.Prelude.{◌≡◌, true, ◌≤◌, eqb};
ghost use Rattle.reading.specs.Reading.{displayable};
ghost use Rattle.line.specs.Buffer.{after};
ghost use Rattle.filed.specs.Filed.{refusal_number, datum_of, kind_of, bits_of, has_bits, given_of, record_of, roomed, written_of, left, taken_where, record_at, taken_of};

use filed::{Datum, Record, Refusal, Unwritten};
use reading::Reading;

// ---- a reading, given

// A reading as the historian takes it.
fn datum(reading: Reading, places: usize) -> Datum
    requires { (displayable reading ≡ true) × (places ≤ 4) }
    ensures { result ≡ datum_of places reading }
{
    match reading {
        Reading::Nothing => Datum::Nothing,
        Reading::Under => Datum::Under,
        Reading::Number(display) => Datum::Value(dividing::value(display, places)),
        Reading::Over => Datum::Over,
    }
}

// A reading, with the places of its input, as a value, Over, Under or none.
#[tactic(auto, unfolding(filed::specs::Filed::given_of))]
pub fn give(reading: Reading, places: i32) -> Result<Record, Refusal>
    ensures { result ≡ given_of reading places }
{
    if !(0..=4).contains(&places) {
        return Err(Refusal::Places);
    }
    if !reading::is_displayable(reading) {
        return Err(Refusal::Value);
    }
    let datum = datum(reading, places as usize);
    let places = places as u8;
    Ok(Record { places, datum })
}

// ---- the writer

// The number that a record has for a datum, 0 a value, 1 Over, 2 Under, 3 none, and the bits, 0 where there is no value. A value has to be a
// number, for a NaN has no bits of its own.
pub fn kind_and_bits(datum: Datum) -> (u8, u32)
    requires { has_bits datum ≡ true }
    ensures kind { result.0 ≡ kind_of datum }
    ensures bits { result.1 ≡ bits_of datum }
{
    match datum {
        Datum::Value(x) => (0, x.to_bits()),
        Datum::Over => (1, 0),
        Datum::Under => (2, 0),
        Datum::Nothing => (3, 0),
    }
}

// The bytes of a record whose value, if it has one, is a number: kind, places, two zeros, and bits from the low byte on.
#[tactic(auto, unfolding(filed::specs::Filed::record_of))]
fn bytes_of(said: Record) -> [u8; 8]
    requires { has_bits said.datum ≡ true }
    ensures { result ≡ record_of said.places said.datum }
{
    let (kind, bits) = kind_and_bits(said.datum);
    let [low, second, third, high] = bits.to_le_bytes();
    [kind, said.places, 0, 0, low, second, third, high]
}

// A record laid into the buffer from a place on, as a reply is, where all of it has room.
fn lay(buf: &mut [u8], place: usize, text: [u8; 8]) -> Result<usize, Unwritten>
    ensures value { result ≡ roomed buf.old place }
    ensures buf_after { buf.new ≡ after buf.old place text }
{
    line::write_whole(buf, place, 8, |tail| line::put_text(tail, &text)).ok_or(Unwritten::NoRoom)
}

// A reading, with the places of its input, written as a record from a place of the lent buffer on.
#[tactic(auto, unfolding(filed::specs::Filed::written_of, filed::specs::Filed::left))]
pub fn write(
    reading: Reading,
    places: i32,
    buf: &mut [u8],
    place: usize,
) -> Result<usize, Unwritten>
    ensures value { result ≡ written_of reading places buf.old place }
    ensures buf_after { buf.new ≡ left reading places buf.old place }
{
    let said = give(reading, places)?;
    lay(buf, place, bytes_of(said))
}

// ---- the reader

// A record with a value.
#[tactic(auto, using(dividing::proofs::Values::given_number), unfolding(filed::specs::Filed::record_at))]
fn value_at(places: u8, pattern: u32) -> Result<Record, Refusal>
    requires { places ≤ 4 }
    ensures { result ≡ record_at 0 places pattern }
{
    if !dividing::is_given(pattern, usize::from(places)) {
        return Err(Refusal::Value);
    }
    let datum = Datum::Value(f32::from_bits(pattern));
    Ok(Record { places, datum })
}

// A record that has none, and so no bit set.
fn mark_at(places: u8, bits: u32, datum: Datum) -> Result<Record, Refusal>
    ensures { result ≡ taken_where (eqb bits 0) places datum }
{
    if bits != 0 {
        return Err(Refusal::Value);
    }
    Ok(Record { places, datum })
}

#[tactic(auto, unfolding(filed::specs::Filed::record_at))]
fn record_at(kind: u8, places: u8, pattern: u32) -> Result<Record, Refusal>
    requires { places ≤ 4 }
    ensures { result ≡ record_at kind places pattern }
{
    match kind {
        0 => value_at(places, pattern),
        1 => mark_at(places, pattern, Datum::Over),
        2 => mark_at(places, pattern, Datum::Under),
        _ => mark_at(places, pattern, Datum::Nothing),
    }
}

// Any bytes, taken for a record.
#[tactic(auto, unfolding(filed::specs::Filed::taken_of))]
pub fn read(s: &[u8]) -> Result<Record, Refusal>
    ensures { result ≡ taken_of s.now }
{
    let &[kind, places, filler, other_filler, low, second, third, high] = s else {
        return Err(Refusal::Length);
    };
    if kind > 3 {
        return Err(Refusal::Kind);
    }
    if filler != 0 || other_filler != 0 || places > 4 {
        return Err(Refusal::Places);
    }
    record_at(kind, places, u32::from_le_bytes([low, second, third, high]))
}

// A refusal's number.
pub fn number(why: Refusal) -> u64
    ensures { result ≡ refusal_number why }
{
    match why {
        Refusal::Length => 30,
        Refusal::Kind => 31,
        Refusal::Places => 32,
        Refusal::Value => 33,
    }
}
