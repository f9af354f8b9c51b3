// Bytes in hexadecimal, for programs that print them or are told them.
#![tactic(auto)]

ghost use Rattle.std.specs.Prelude.{◌≡◌, true, [], ◌∷◌, length};
ghost use Rattle.text.specs.Output.{waiting, puts};
ghost use Rattle.hexadecimal.specs.Hex.{hex_byte, hex, is_digit, digit_of, is_size, all_digits, is_text, bytes_of, over, hexed, filled};

use text::output::Out;

const HEX: [u8; 16] = *b"0123456789abcdef";

// The most bytes that a text says.
pub const MOST: usize = 64;

fn put_hex_byte(out: &mut Out, b: u8)
    ensures { waiting out.new ≡ puts (waiting out.old) (hex_byte b ∷ []) }
{
    let high = usize::from(b / 16);
    let low = usize::from(b % 16);
    out.put(&[HEX[high], HEX[low]]);
}

// Puts bytes in hexadecimal, or a dash where there are none.
pub fn put_hex(out: &mut Out, s: &[u8])
    ensures { waiting out.new ≡ puts (waiting out.old) (hex s.now) }
{
    if s.is_empty() {
        out.put(b"-");
        return;
    }
    for &b in s {
        put_hex_byte(out, b);
    }
}

// What a digit is worth, in either case.
#[tactic(auto, unfolding(crate::specs::Hex::is_digit, crate::specs::Hex::digit_of))]
fn digit(b: u8) -> u8
    requires { is_digit b ≡ true }
    ensures { result ≡ digit_of b }
{
    match b {
        b'0'..=b'9' => b - b'0',
        b'a'..=b'f' => b - b'a' + 10,
        _ => b - b'A' + 10,
    }
}

// A digit counts in either case.
fn all_digits(text: &[u8]) -> bool
    ensures { result ≡ all_digits text.now }
{
    text.iter().all(|b| b.is_ascii_hexdigit())
}

// Whether so many digits are two for each of 1 to `MOST` bytes.
#[tactic(auto, unfolding(crate::specs::Hex::is_size))]
fn is_size(n: usize) -> bool
    ensures { result ≡ is_size n }
{
    (2..=2 * MOST).contains(&n) && n % 2 == 0
}

// Whether a text is hexadecimal. No single byte is two digits, so that a dash is taken for nothing else.
#[tactic(auto, unfolding(crate::specs::Hex::is_text))]
fn is_text(text: &[u8]) -> bool
    ensures { result ≡ is_text text.now }
{
    match text {
        [only] => *only == b'-',
        _ => is_size(text.len()) && all_digits(text),
    }
}

// Fills in the bytes that a text says, and answers how many they are. A dash is too short for two digits, so it says none.
fn fill(text: &[u8], bytes: &mut [u8; MOST]) -> usize
    requires { is_text text.now ≡ true }
    ensures value { result ≡ length (bytes_of text.now) }
    ensures bytes_after { bytes.new ≡ over bytes.old (bytes_of text.now) }
{
    for (n, pair) in text.chunks_exact(2).enumerate() {
        let high = digit(pair[0]);
        let low = digit(pair[1]);
        bytes[n] = high * 16 + low;
    }
    text.len() / 2
}

// Reads a text: two digits for each of 1 to `MOST` bytes, or a dash for none. The bytes that it says stand first in the array, and the
// rest of it is left as it was; the answer is how many they are. The whole text is judged first, so that one which is not hexadecimal
// changes nothing.
pub fn read_hex(text: &[u8], bytes: &mut [u8; MOST]) -> Option<usize>
    ensures value { result ≡ hexed text.now }
    ensures bytes_after { bytes.new ≡ filled bytes.old text.now }
{
    if !is_text(text) {
        return None;
    }
    Some(fill(text, bytes))
}
