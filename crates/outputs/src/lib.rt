// How the outputs are driven: the analog code, automatic or manual mode, and the status number, which is stored with them.
//
// Four alarms as bits and analog displays that differ are asked in clauses, and no type holds them: the calls are promised for plain numbers,
// and a type would ask more of whoever has these.
#![tactic(auto)]

ghost use Rattle.std.specs.Prelude.{◌≡◌, false, ◌≤◌};
ghost use Rattle.exact.specs.Sign.{eq_z};
ghost use Rattle.outputs.specs.Outputs.{status, driving, powered_up, sampled, coded, alarms_reset, automatic, write_code, to_manual, to_automatic, in_code, sound};

use config::Working;
use reading::Reading;

// Automatic, or manual with the four outputs as bits 0 to 3: two states with names of their own, and no byte that may be missing.
#[derive(Clone, Copy)]
pub enum Mode {
    Automatic,
    Manual(u8),
}

// The status has 16 bits: they hold 16 and any byte of manual outputs, and whatever they hold fits a line.
#[derive(Clone, Copy)]
pub struct Outputs {
    pub code: i32,
    pub mode: Mode,
    pub status: u16,
}

// The status number, with the alarms that are on as bits.
#[tactic(auto, unfolding(crate::specs::Outputs::status))]
fn status(mode: Mode, on: u32) -> u16
    requires { on ≤ 15 }
    ensures { result ≡ status mode on }
{
    match mode {
        Mode::Automatic => on as u16,
        Mode::Manual(bits) => 16 + u16::from(bits),
    }
}

// New outputs: the one place where a status is worked out, and it is stored at once.
fn driving(code: i32, mode: Mode, on: u32) -> Outputs
    requires { on ≤ 15 }
    ensures { result ≡ driving code mode on }
{
    Outputs {
        code,
        mode,
        status: status(mode, on),
    }
}

// Automatic mode with code 0, and no alarm on.
pub fn powered_up() -> Outputs
    ensures { result ≡ powered_up }
{
    driving(0, Mode::Automatic, 0)
}

// The analog code: worked out in automatic mode, left standing in manual mode.
#[tactic(auto, unfolding(crate::specs::Outputs::coded))]
fn coded(working: Working, mode: Mode, code: i32, reading: Reading) -> i32
    requires { eq_z working.analog.low working.analog.high ≡ false }
    ensures { result ≡ coded working mode code reading }
{
    match mode {
        Mode::Automatic => analog::code_of(working.analog.low, working.analog.high, reading),
        Mode::Manual(_) => code,
    }
}

// A sample whose reading is known, with the alarms that it leaves on.
pub fn sampled(working: Working, o: Outputs, on: u32, reading: Reading) -> Outputs
    requires high_value { eq_z working.analog.low working.analog.high ≡ false }
    requires on_bound { on ≤ 15 }
    ensures { result ≡ sampled working o on reading }
{
    driving(coded(working, o.mode, o.code, reading), o.mode, on)
}

// A reset of alarms, with those that it leaves on.
pub fn alarms_reset(o: Outputs, on: u32) -> Outputs
    requires { on ≤ 15 }
    ensures { result ≡ alarms_reset o on }
{
    driving(o.code, o.mode, on)
}

// Whether the mode is automatic.
pub fn is_automatic(mode: Mode) -> bool
    ensures { result ≡ automatic mode }
{
    matches!(mode, Mode::Automatic)
}

// V of the analog register.
pub fn write_code(o: Outputs, z: i32) -> Outputs
    ensures { result ≡ write_code o z }
{
    Outputs { code: z, ..o }
}

// VJ with bit 4 set: the four bits below it drive the outputs, and the last code stands.
pub fn to_manual(o: Outputs, on: u32, b: u8) -> Outputs
    requires { on ≤ 15 }
    ensures { result ≡ to_manual o on b }
{
    driving(o.code, Mode::Manual(b % 16), on)
}

// VJ with bit 4 clear: the code of the present reading at once.
pub fn to_automatic(working: Working, on: u32, reading: Reading) -> Outputs
    requires high_value { eq_z working.analog.low working.analog.high ≡ false }
    requires on_bound { on ≤ 15 }
    ensures { result ≡ to_automatic working on reading }
{
    let code = analog::code_of(working.analog.low, working.analog.high, reading);
    driving(code, Mode::Automatic, on)
}

// Whether a number is an analog code.
fn in_code(z: i32) -> bool
    ensures { result ≡ in_code z }
{
    (0..=4095).contains(&z)
}

// Whether the code is one that can be shown.
#[tactic(auto, unfolding(crate::specs::Outputs::sound))]
pub fn is_sound(o: Outputs) -> bool
    ensures { result ≡ sound o }
{
    in_code(o.code)
}
