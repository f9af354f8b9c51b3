// A display as a binary32, and whether a pattern is any display's. What is said of it stands in `binary32`.
#![tactic(auto)]

ghost use Rattle.std.specs.Prelude.{◌≡◌, true, ◌&&◌, ◌≤◌, eqb};
ghost use Rattle.reading.specs.Reading.{in_display};
ghost use Rattle.binary32.specs.Binary32.{value, bits, gives, field, display_of};

use reading::Reading;

// What a pattern's sign weighs, and one of its exponent's field, behind which stand the 23 digits of the significand that are written.
const SIGN: u32 = 0x8000_0000;

const FIELD: u32 = 0x0080_0000;

// The display divided by its power of ten, both of which a binary32 holds exactly, in a single division; with no places the display itself.
pub fn value(display: i32, places: usize) -> f32
    requires { (in_display display ≡ true) × (places ≤ 4) }
    ensures { result ≡ value places display }
{
    let whole = display as f32;
    if places == 0 {
        return whole;
    }
    let power = exact::power_of_ten(places) as f32;
    whole / power
}

fn bits(display: i32, places: usize) -> u32
    requires { (in_display display ≡ true) × (places ≤ 4) }
    ensures { result ≡ bits places display }
{
    value(display, places).to_bits()
}

// The one display that bits can be of, where their field is one that displays have: what they stand for, times the power of ten, to the
// nearest whole number.
fn display_of(bits: u32, places: usize) -> i64
    requires { (113 ≤ field bits) × (field bits ≤ 143) × (places ≤ 4) }
    ensures { result ≡ display_of places bits }
{
    let significand = FIELD + bits % FIELD;
    let times = i64::from(significand) * i64::from(exact::power_of_ten(places));
    let unit = 1i64 << (150 - bits % SIGN / FIELD);
    if bits < SIGN {
        exact::nearest(times, unit)
    } else {
        exact::nearest(-times, unit)
    }
}

// Whether a number is a display with these bits.
fn has_bits(number: i64, places: usize, pattern: u32) -> bool
    requires { places ≤ 4 }
    ensures { result ≡ in_display number && eqb (bits places number) pattern }
{
    match reading::judged(number) {
        Reading::Number(display) => bits(display, places) == pattern,
        Reading::Nothing | Reading::Under | Reading::Over => false,
    }
}

// Whether some display with these places has these bits. They are judged as whole numbers, before a float is made of them. Of all displays
// but 0 the least field is that of 0.0001, and the largest that of 99,999.
pub fn is_given(pattern: u32, places: usize) -> bool
    requires { places ≤ 4 }
    ensures { result ≡ gives places pattern }
{
    if pattern == 0 {
        return true;
    }
    let field = pattern % SIGN / FIELD;
    (113..=143).contains(&field) && has_bits(display_of(pattern, places), places, pattern)
}
