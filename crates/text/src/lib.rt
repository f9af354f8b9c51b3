// Text that comes in blocks: cut into lines without a heap, a line into words, and numbers read exactly.
#![tactic(auto)]

pub mod output;
pub mod stream;

ghost use Rattle.std.specs.Prelude.{◌≡◌, ◌≤◌, length, MatchOption};
ghost use Rattle.text.specs.Line.{Used, bytes, heard, long, no_line, scan, with_byte};
ghost use Rattle.text.specs.Number.{natural_of, signed_of, number_of, flag_of};
ghost use Rattle.text.specs.Word.{word_end};

// The most bytes of a line that are kept. The longest line that a program here can take, a configuration of `replay` with every number
// at its widest, has 739.
pub const KEPT: usize = 1024;

// A line that is being read. With a length of at most `KEPT` it is that many bytes of the room, and any greater length is the one state
// "too long". So every pair of them means something, no condition has to travel with it, and a caller may set both.
#[derive(Drop)]
pub struct Line {
    pub room: [u8; KEPT],
    pub len: usize,
}

// What feeding a block did: how many of its bytes it used, and whether the line ended there. The LF is used, and is no part of the line.
#[derive(Clone, Copy)]
pub struct Step {
    pub used: usize,
    pub ended: bool,
}

// One byte more of a line: its room keeps it while it has place for it. Answers the length.
#[tactic(auto, unfolding(crate::specs::Line::with_byte))]
fn keep(room: &mut [u8; KEPT], len: usize, b: u8) -> usize
    ensures { record { room = room.new; len = result } ≡ with_byte (record { room = room.old; len = len }) b }
{
    if len < KEPT {
        room[len] = b;
        len + 1
    } else {
        KEPT + 1
    }
}

impl Line {
    // Nothing has come.
    pub fn new() -> Line
        ensures { result ≡ no_line }
    {
        Line {
            room: [0; KEPT],
            len: 0,
        }
    }

    // Reads s up to its first LF, or to its end, on to the line. The length is counted in a local: stored in the struct at each byte, it would
    // have each byte wait for the one before it.
    pub fn feed(&mut self, s: &[u8]) -> Step
        ensures value { result ≡ (scan 0 s.now self.old).step }
        ensures line_after { self.new ≡ (scan 0 s.now self.old).line }
        ensures used { Used result.used (length s.now) }
    {
        let mut len = self.len;
        for (i, b) in s.iter().enumerate() {
            if *b == b'\n' {
                self.len = len;
                return Step {
                    used: i + 1,
                    ended: true,
                };
            }
            len = keep(&mut self.room, len, *b);
        }
        self.len = len;
        Step {
            used: s.len(),
            ended: false,
        }
    }

    // The next line begins.
    pub fn clear(&mut self)
        ensures { self.new ≡ record { room = self.old.room; len = 0 } }
    {
        self.len = 0;
    }

    // The bytes of the line, if they are not more than are kept.
    pub fn text(&self) -> Option<&[u8]>
        ensures { MatchOption result (heard self.now ≡ long) (λ s. heard self.now ≡ bytes s.now) }
    {
        if self.len <= KEPT {
            Some(&self.room[..self.len])
        } else {
            None
        }
    }
}

// Where the word ends that begins at a place of a line: at the next space, or at the line's end.
pub fn word_end(s: &[u8], at: usize) -> usize
    requires { at ≤ length s.now }
    ensures value { result ≡ word_end at s.now }
    ensures within { (at ≤ result) × (result ≤ length s.now) }
{
    match s[at..].iter().position(|b| *b == b' ') {
        Some(n) => at + n,
        None => s.len(),
    }
}

// An unsigned number: 1 to so many digits, in 64 bits.
pub fn read_natural(most: usize, s: &[u8]) -> Option<u64>
    ensures { result ≡ natural_of most s.now }
{
    if (s.len() < 1) | (most < s.len()) {
        return None;
    }
    let mut v: u64 = 0;
    for b in s {
        if (*b < b'0') | (b'9' < *b) {
            return None;
        }
        v = v.checked_mul(10)?.checked_add(u64::from(*b - b'0'))?;
    }
    Some(v)
}

// A size of at most 64 bits with its sign, in signed 32 bits.
#[tactic(auto, unfolding(crate::specs::Number::signed_of))]
fn with_sign(neg: bool, size: u64) -> Option<i32>
    ensures { result ≡ signed_of neg (Some size) }
{
    if neg {
        if size <= 2147483648 {
            Some((0 - size as i64) as i32)
        } else {
            None
        }
    } else {
        if size <= 2147483647 {
            Some(size as i32)
        } else {
            None
        }
    }
}

// A number: an optional minus and 1 to 10 digits, in signed 32 bits.
pub fn read_number(s: &[u8]) -> Option<i32>
    ensures { result ≡ number_of s.now }
{
    if s.len() < 1 {
        return None;
    }
    if s[0] == b'-' {
        with_sign(true, read_natural(10, &s[1..])?)
    } else {
        with_sign(false, read_natural(10, s)?)
    }
}

// A yes or no: the one byte `1` or `0`.
#[tactic(auto, unfolding(crate::specs::Number::flag_of))]
pub fn read_flag(s: &[u8]) -> Option<bool>
    ensures { result ≡ flag_of s.now }
{
    if s.len() == 1 {
        match s[0] {
            b'0' => Some(false),
            b'1' => Some(true),
            _ => None,
        }
    } else {
        None
    }
}
