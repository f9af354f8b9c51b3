// What a key or a string asks is carried out, over settings and instrument alone: the answer, the instrument afterwards, and a reply in
// the lent buffer. Neither the receiver nor the rest of a meter is handed over.
// Settings and instrument are parameters beside each other, and no struct with `Able` as its ghost field: `press` and `tell` are handed
// them so and every definition takes them so, and each contract would read `on.talking on.working on.instrument` for `talking working i`.
#![tactic(auto)]

mod reply;

ghost use Rattle.std.specs.Prelude.{◌≡◌, true, Some, ℕ, ◌≤◌, ◌<◌};
ghost use Rattle.answer.specs.declared.Answer.TheVariants.{Done};
ghost use Rattle.register.specs.Registers.{at, count};
ghost use Rattle.total.specs.Total.{Timed, in_range};
ghost use Rattle.form.specs.Understood.{Permitted};
ghost use Rattle.command.specs.declared.Asked.{Asked};
ghost use Rattle.effect.specs.Reply.{read_reply, print_reply};
ghost use Rattle.effect.specs.Effect.{settled, replies, by_room, written, carried, addressed, batch, pressed, settle};
ghost use Rattle.effect.specs.Able.{can_talk, can_work, able, Able};

use answer::Answer;
use command::Asked;
use config::{Talking, Working};
use instrument::Instrument;
use reply::{own_node, print, read};

// An answer, and the instrument with it.
#[derive(Clone, Copy)]
pub struct Settled {
    pub answer: Answer,
    pub instrument: Instrument,
}

// What a reply comes to: with no room for it the instrument before it stays.
fn by_room(before: Instrument, i: Instrument, written: Option<usize>) -> Settled
    ensures { result ≡ by_room before i written }
{
    match written {
        Some(n) => Settled {
            answer: Answer::Replied(n),
            instrument: i,
        },
        None => Settled {
            answer: Answer::NoRoom,
            instrument: before,
        },
    }
}

// Answer 0, and the instrument that comes of what was carried out.
fn done(instrument: Instrument) -> Settled
    ensures { result ≡ settled Done instrument }
{
    Settled {
        answer: Answer::Done,
        instrument,
    }
}

// ---- strings

// T: the line of a register, where it has room.
fn line(
    talking: Talking,
    working: Working,
    i: Instrument,
    register: usize,
    buffer: &mut [u8],
    place: usize,
) -> Settled
    requires able { Able talking working i }
    requires register_lt_count { register < count }
    ensures value { result ≡ (settle i (replies (read_reply talking working i register) i) buffer.old place).settled }
    ensures buffer_after { buffer.new ≡ (settle i (replies (read_reply talking working i register) i) buffer.old place).buffer }
{
    let written = read(talking, working, i, register, buffer, place);
    by_room(i, i, written)
}

// P and key 6: the block, where it has room.
fn block(
    talking: Talking,
    working: Working,
    i: Instrument,
    buffer: &mut [u8],
    place: usize,
) -> Settled
    requires { Able talking working i }
    ensures value { result ≡ (settle i (replies (print_reply talking working i) i) buffer.old place).settled }
    ensures buffer_after { buffer.new ≡ (settle i (replies (print_reply talking working i) i) buffer.old place).buffer }
{
    let written = print(talking, working, i, buffer, place);
    by_room(i, i, written)
}

// V of a number that the register holds.
fn write(working: Working, i: Instrument, register: usize, z: i32) -> Settled
    requires { (at "E" ≤ register) × (register ≤ at "I") }
    ensures { result ≡ written working i register z }
{
    if operating::is_shut(i.outputs.mode, register) {
        return Settled {
            answer: Answer::InAutomatic,
            instrument: i,
        };
    }
    done(operating::write_register(working, i, register, z))
}

// What is asked of this meter.
fn carry_out(
    talking: Talking,
    working: Working,
    i: Instrument,
    asked: Asked,
    buffer: &mut [u8],
    place: usize,
) -> Settled
    requires able { Able talking working i }
    requires permitted { Permitted asked }
    ensures value { result ≡ (settle i (carried talking working i asked) buffer.old place).settled }
    ensures buffer_after { buffer.new ≡ (settle i (carried talking working i asked) buffer.old place).buffer }
{
    match asked {
        Asked::Read(register) => line(talking, working, i, register, buffer, place),
        Asked::Print => block(talking, working, i, buffer, place),
        Asked::Reset(register) => done(operating::reset_register(working, i, register)),
        Asked::Write(register, z) => write(working, i, register, z),
        Asked::Status(b) => done(operating::write_status(working, i, b)),
        Asked::BadForm => Settled {
            answer: Answer::BadForm,
            instrument: i,
        },
    }
}

// A string: the address first, then what is asked.
pub fn tell(
    talking: Talking,
    working: Working,
    i: Instrument,
    parsed: Option<(u8, Asked)>,
    buffer: &mut [u8],
    place: usize,
) -> Settled
    requires able { Able talking working i }
    requires by_index { (node : ℕ) (asked : Asked) → parsed ≡ Some (node, asked) → Permitted asked }
    ensures value { result ≡ (settle i (addressed talking working i parsed) buffer.old place).settled }
    ensures buffer_after { buffer.new ≡ (settle i (addressed talking working i parsed) buffer.old place).buffer }
{
    match parsed {
        None => Settled {
            answer: Answer::BadForm,
            instrument: i,
        },
        Some((node, asked)) => {
            if node == own_node(talking.node) {
                carry_out(talking, working, i, asked, buffer, place)
            } else {
                Settled {
                    answer: Answer::OtherNode,
                    instrument: i,
                }
            }
        }
    }
}

// ---- keys

// Key 1.
fn batch(working: Working, i: Instrument) -> Settled
    requires timed { Timed working.totalizer }
    requires total_value { in_range working.totalizer i.measured.total ≡ true }
    ensures { result ≡ batch working i }
{
    if working.totalizer.batch {
        done(operating::batched(working, i))
    } else {
        Settled {
            answer: Answer::UnknownKey,
            instrument: i,
        }
    }
}

// A key. Keys 2 to 4 act as RB, RC and RD do.
pub fn press(
    talking: Talking,
    working: Working,
    i: Instrument,
    number: i32,
    buffer: &mut [u8],
    place: usize,
) -> Settled
    requires { Able talking working i }
    ensures value { result ≡ (settle i (pressed talking working i number) buffer.old place).settled }
    ensures buffer_after { buffer.new ≡ (settle i (pressed talking working i number) buffer.old place).buffer }
{
    match number {
        1 => batch(working, i),
        2 => done(operating::reset_register(working, i, register::TOT)),
        3 => done(operating::reset_register(working, i, register::MAX)),
        4 => done(operating::reset_register(working, i, register::MIN)),
        5 => done(operating::reset_alarms(working, i)),
        6 => block(talking, working, i, buffer, place),
        _ => Settled {
            answer: Answer::UnknownKey,
            instrument: i,
        },
    }
}

// ---- what carrying out leans on

// A node and decimal places that a line can show.
fn can_talk(talking: Talking) -> bool
    ensures { result ≡ can_talk talking }
{
    (0..=99).contains(&talking.node) && config::places_rule(talking.places)
}

// A time base to divide by, and analog displays that differ.
fn can_work(working: Working) -> bool
    ensures { result ≡ can_work working }
{
    (1..=86400).contains(&working.totalizer.time_base) && working.analog.low != working.analog.high
}

// Whether settings and instrument are ones that can be carried out on.
#[tactic(auto, using(crate::proofs::Able::timed), unfolding(crate::specs::Able::able))]
pub fn is_able(talking: Talking, working: Working, i: Instrument) -> bool
    ensures { result ≡ able talking working i }
{
    can_talk(talking) && can_work(working) && operating::is_sound(working, i)
}
