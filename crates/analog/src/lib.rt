// The analog code: where a reading lies between the low and the high display, in steps of 4,095.
#![tactic(auto)]

ghost use Rattle.std.specs.Prelude.{◌≡◌, false, pos, ◌-ℤ◌, ◌*ℤ◌};
ghost use Rattle.exact.specs.Sign.{eq_z};
ghost use Rattle.analog.specs.Analog.{floor_by, held, code_of};

use reading::Reading;

// The floor of 4,095 × (v - low) / (high - low). Where the range falls, both signs are turned, so that the divisor is above zero.
fn scaled(low: i32, high: i32, v: i32) -> i64
    requires { eq_z low high ≡ false }
    ensures { result ≡ floor_by (pos 4095 *ℤ (v -ℤ low)) (high -ℤ low) }
{
    let rise = 4095 * (i64::from(v) - i64::from(low));
    let run = i64::from(high) - i64::from(low);
    if run < 0 {
        exact::floor(-rise, -run)
    } else {
        exact::floor(rise, run)
    }
}

// Held to 0 to 4,095.
#[tactic(auto, unfolding(crate::specs::Analog::held))]
fn held(z: i64) -> i32
    ensures { result ≡ held z }
{
    z.clamp(0, 4095) as i32
}

// The automatic code of a reading.
#[tactic(auto, unfolding(crate::specs::Analog::code_of))]
pub fn code_of(low: i32, high: i32, reading: Reading) -> i32
    requires { eq_z low high ≡ false }
    ensures { result ≡ code_of low high reading }
{
    match reading {
        Reading::Nothing | Reading::Under => 0,
        Reading::Number(v) => held(scaled(low, high, v)),
        Reading::Over => 4095,
    }
}
