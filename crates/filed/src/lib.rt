// A reading as it is filed with the plant historian, in 8 bytes. What is said of it stands in specs/; the writer and the reader stand in
// `filing`, so that a claim is checked without them.
#![tactic(auto)]

ghost use Rattle.std.specs.Prelude.{◌≡◌};
ghost use Rattle.filed.specs.declared.Unwritten.TheVariants.{Refused};

// A reading as the historian takes it: a value, or one of the three that have none. It is a type of its own beside `Reading`, whose numbers
// are whole in every crate but these.
#[derive(Clone, Copy)]
pub enum Datum {
    Value(f32),
    Over,
    Under,
    Nothing,
}

// What 8 bytes say: the reading, and the decimal places of the input that it came from.
#[derive(Clone, Copy)]
pub struct Record {
    pub places: u8,
    pub datum: Datum,
}

// Why something is refused: it is not of 8 bytes; its kind is none; its filler or its places are not such; or no display has its value.
#[derive(Clone, Copy, Debug, PartialEq, Eq)]
pub enum Refusal {
    Length,
    Kind,
    Places,
    Value,
}

// Why a reading was not written: it had no room, or it is refused.
#[derive(Clone, Copy, Debug, PartialEq, Eq)]
pub enum Unwritten {
    NoRoom,
    Refused(Refusal),
}

impl From<Refusal> for Unwritten {
    ghost from_gives = { λ why unwritten. unwritten ≡ Refused why };

    fn from(why: Refusal) -> Unwritten {
        Unwritten::Refused(why)
    }
}
