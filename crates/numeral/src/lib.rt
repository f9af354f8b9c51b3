// A V number, read from its bytes and held to the limits of the register that it is for.
#![tactic(auto)]

ghost use Rattle.std.specs.Prelude.{◌≡◌, cond};
ghost use Rattle.numeral.specs.Number.{amount, held_by, plus, minus, number};

use register::Limits;

// What a V number comes to: the number itself, the limit that it was held to, or that there is none. These are three answers of one
// kind, which the laws tell apart; an Option around the first two would only nest them.
#[derive(Clone, Copy)]
pub enum Number {
    Is(i32),
    Held(i32),
    NoNumber,
}

// What the digits of a V number say, without a sign: digits and points, at least one digit, of which the last five count. None for anything else.
fn amount_of(s: &[u8]) -> Option<u32>
    ensures { result ≡ amount s.now }
{
    let mut n: u32 = 0;
    let mut seen = false;
    for b in s {
        match *b {
            b'0'..=b'9' => {
                n = (10 * n + u32::from(*b - b'0')) % 100000;
                seen = true;
            }
            b'.' => {}
            _ => return None,
        }
    }
    if seen { Some(n) } else { None }
}

// A number past a limit is held to that limit.
fn held_to(limits: Limits, z: i32) -> Number
    ensures { result ≡ held_by limits z }
{
    if z < limits.low {
        return Number::Held(limits.low);
    }
    if limits.high < z {
        return Number::Held(limits.high);
    }
    Number::Is(z)
}

// The number of some digits, below zero where a minus stands before them, held to the limits.
fn signed(limits: Limits, is_minus: bool, digits: &[u8]) -> Number
    ensures { result ≡ cond is_minus (minus limits (amount digits.now)) (plus limits (amount digits.now)) }
{
    match amount_of(digits) {
        Some(n) => {
            let size = n as i32;
            let z = if is_minus { -size } else { size };
            held_to(limits, z)
        }
        None => Number::NoNumber,
    }
}

// A V number: an optional leading minus, and its digits. The last five are taken first, and then the limits hold.
pub fn number_of(limits: Limits, s: &[u8]) -> Number
    ensures { result ≡ number limits s.now }
{
    match s {
        [b'-', digits @ ..] => signed(limits, true, digits),
        _ => signed(limits, false, s),
    }
}
