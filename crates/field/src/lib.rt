// The 12 data bytes of a reply line: a number with its decimal places, or a mark, right-justified. At most four places are asked in clauses,
// here and above: the calls are promised for a plain number of them, and a type that holds it would ask more of whoever has one.
#![tactic(auto)]

ghost use Rattle.std.specs.Prelude.{◌≡◌, ◌-◌, ◌≤◌, ◌<◌, ◌^◌, nat_abs, length, replicate};
ghost use Rattle.register.specs.Bytes.{byte};
ghost use Rattle.field.specs.Field.{digit, digits, whole, fraction, sign, number, field, at_right, Showable};

use reading::Reading;

// The last digit of n.
fn last_digit(n: u32) -> u8
    ensures { result ≡ digit n }
{
    b'0' + (n % 10) as u8
}

// Fills a part of the field with the last digits of n.
fn put_digits(buf: &mut [u8], n: u32)
    ensures { buf.new ≡ digits (length buf.old) n }
{
    let mut left = n;
    // by place, since of what is written through `iter_mut` no more than the length is known afterwards
    for i in (0..buf.len()).rev() {
        buf[i] = last_digit(left);
        left /= 10;
    }
}

// The whole part at the right end of what is left of the field. The answer is where it starts.
fn put_whole(buf: &mut [u8], n: u32) -> usize
    requires { (n < 10 ^ 9) × (length (whole n) ≤ length buf.old) }
    ensures { (result ≡ length buf.old - length (whole n)) × (buf.new ≡ at_right buf.old (whole n)) }
{
    let mut left = n;
    let mut i = buf.len();
    // it ends by the number and not by the field, so no range gives its turns
    loop {
        i -= 1;
        buf[i] = last_digit(left);
        if left < 10 {
            return i;
        }
        left /= 10;
    }
}

// The point and a digit for each place at the right end of the field. The answer is where they start.
fn put_fraction(buf: &mut [u8], places: usize, n: u32) -> usize
    requires { length (fraction places n) ≤ length buf.old }
    ensures { (result ≡ length buf.old - length (fraction places n)) × (buf.new ≡ at_right buf.old (fraction places n)) }
{
    let end = buf.len();
    if places == 0 {
        return end;
    }
    let start = end - places;
    put_digits(&mut buf[start..], n);
    let point = start - 1;
    buf[point] = b'.';
    point
}

// The minus of a number below zero at the right end of what is left of the field.
fn put_sign(buf: &mut [u8], n: i32)
    requires { length (sign n) ≤ length buf.old }
    ensures { buf.new ≡ at_right buf.old (sign n) }
{
    if n < 0 {
        let last = buf.len() - 1;
        buf[last] = b'-';
    }
}

// A number with its decimal places at the right end of the field: fraction, whole part and minus, from the right.
fn put_number(buf: &mut [u8], places: usize, n: i32)
    requires { (places ≤ 4) × (nat_abs n < 10 ^ 9) × (length (number places n) ≤ length buf.old) }
    ensures { buf.new ≡ at_right buf.old (number places n) }
{
    let size = n.unsigned_abs();
    let power = exact::power_of_ten(places);
    // beside the remainder, so that one division gives both
    let whole = size / power;
    let point = put_fraction(buf, places, size % power);
    let start = put_whole(&mut buf[0..point], whole);
    put_sign(&mut buf[0..start], n);
}

// A mark at the right end of the field.
fn put_mark(buf: &mut [u8], mark: &[u8])
    requires { length mark.now ≤ length buf.old }
    ensures { buf.new ≡ at_right buf.old mark.now }
{
    let start = buf.len() - mark.len();
    buf[start..].copy_from_slice(mark);
}

// The 12 data bytes, in their place: spaces, and a number or a mark over the right end of them, so that nothing shows of what stood there before.
pub fn fill(part: &mut [u8], places: usize, shown: Reading)
    requires { Showable places shown × (length part.old ≡ 12) }
    ensures { part.new ≡ field places shown }
{
    part.fill(b' ');
    match shown {
        Reading::Nothing => put_mark(part, b"----"),
        Reading::Under => put_mark(part, b"ULUL"),
        Reading::Over => put_mark(part, b"OLOL"),
        Reading::Number(n) => put_number(part, places, n),
    }
}
