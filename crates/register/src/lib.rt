// The registers: letter, mnemonic, permitted commands and the limits of what V writes, in constant tables; what a block print may choose
// of them; and beside them what a line of each can show.
#![tactic(auto)]

ghost use Rattle.std.specs.Prelude.{◌≡◌, get_or};
ghost use Rattle.register.specs.Registers.{register_of, entry, index};
ghost use Rattle.register.specs.Shows.{shows_at};

// The numbers that a register holds: from the low one to the high one, both among them.
#[derive(Clone, Copy)]
pub struct Limits {
    pub low: i32,
    pub high: i32,
}

// What V writes to a register: nothing, a number held to limits, or one byte.
#[derive(Clone, Copy)]
pub enum Writes {
    Nothing,
    Number(Limits),
    Byte,
}

// A register: its letter, its mnemonic, and whether T reads it and R resets it. What V writes is a column of its own, since a reply line
// asks for a mnemonic alone, and then copies no limits.
#[derive(Clone, Copy)]
pub struct Register {
    pub letter: u8,
    pub mnemonic: [u8; 3],
    pub read: bool,
    pub reset: bool,
}

// What a block print shows: the input, max with min, the total, all four setpoints.
#[derive(Clone, Copy)]
pub struct Print {
    pub input: bool,
    pub extremes: bool,
    pub total: bool,
    pub setpoints: bool,
}

// What a line of a register can show: numbers within limits, `OLOL` and `ULUL` where it can lie beyond them, `----` where it can have none;
// and whether its numbers have decimal places.
#[derive(Clone, Copy)]
pub struct Shows {
    pub numbers: Limits,
    pub beyond: bool,
    pub none: bool,
    pub places: bool,
}

// How many registers there are.
pub const COUNT: usize = 10;

// The places of those that code names.
pub const INP: usize = 0;

pub const TOT: usize = 1;

pub const MAX: usize = 2;

pub const MIN: usize = 3;

pub const SP1: usize = 4;

pub const SP2: usize = 5;

pub const SP3: usize = 6;

pub const SP4: usize = 7;

pub const AOR: usize = 8;

pub const CSR: usize = 9;

const REGISTERS: [Register; COUNT] = [
    Register {
        letter: b'A',
        mnemonic: *b"INP",
        read: true,
        reset: false,
    },
    Register {
        letter: b'B',
        mnemonic: *b"TOT",
        read: true,
        reset: true,
    },
    Register {
        letter: b'C',
        mnemonic: *b"MAX",
        read: true,
        reset: true,
    },
    Register {
        letter: b'D',
        mnemonic: *b"MIN",
        read: true,
        reset: true,
    },
    Register {
        letter: b'E',
        mnemonic: *b"SP1",
        read: true,
        reset: true,
    },
    Register {
        letter: b'F',
        mnemonic: *b"SP2",
        read: true,
        reset: true,
    },
    Register {
        letter: b'G',
        mnemonic: *b"SP3",
        read: true,
        reset: true,
    },
    Register {
        letter: b'H',
        mnemonic: *b"SP4",
        read: true,
        reset: true,
    },
    Register {
        letter: b'I',
        mnemonic: *b"AOR",
        read: true,
        reset: false,
    },
    Register {
        letter: b'J',
        mnemonic: *b"CSR",
        read: true,
        reset: false,
    },
];

// What V writes to a setpoint, and to the analog register.
const SETPOINT: Writes = Writes::Number(Limits {
    low: -19999,
    high: 99999,
});

const CODE: Writes = Writes::Number(Limits { low: 0, high: 4095 });

// What V writes to each register of the table.
const WRITTEN: [Writes; COUNT] = [
    Writes::Nothing,
    Writes::Nothing,
    Writes::Nothing,
    Writes::Nothing,
    SETPOINT,
    SETPOINT,
    SETPOINT,
    SETPOINT,
    CODE,
    Writes::Byte,
];

// How many registers have lines that are read: these ten, whatever registers come behind them in the list.
pub const READ: usize = 10;

// What a display shows, and a total.
const DISPLAY: Limits = Limits {
    low: -19_999,
    high: 99999,
};

const TOTAL: Limits = Limits {
    low: -199999999,
    high: 999999999,
};

// Max and min have no number before a sample, a setpoint always has one.
const EXTREME: Shows = Shows {
    numbers: DISPLAY,
    beyond: false,
    none: true,
    places: true,
};

const SETPOINTS: Shows = Shows {
    numbers: DISPLAY,
    beyond: false,
    none: false,
    places: true,
};

// What a line of each register can show.
const SHOWN: [Shows; READ] = [
    Shows {
        numbers: DISPLAY,
        beyond: true,
        none: true,
        places: true,
    },
    Shows {
        numbers: TOTAL,
        beyond: true,
        none: false,
        places: true,
    },
    EXTREME,
    EXTREME,
    SETPOINTS,
    SETPOINTS,
    SETPOINTS,
    SETPOINTS,
    Shows {
        numbers: Limits { low: 0, high: 4095 },
        beyond: false,
        none: false,
        places: false,
    },
    Shows {
        numbers: Limits { low: 0, high: 31 },
        beyond: false,
        none: false,
        places: false,
    },
];

// The entry at a place of a table; past its end what is said to stand there. The table is lent, and so it stands in memory once; a constant
// that is indexed in its place is laid out anew at every look, which costs 11 instructions more for a mnemonic.
fn entry_or<T: Copy>(table: &[T], index: usize, past: T) -> T
    ensures { result ≡ get_or table.now index past }
{
    table.get(index).copied().unwrap_or(past)
}

// What stands past the end of the table: a register that no command takes.
const NO_REGISTER: Register = Register {
    letter: 0,
    mnemonic: [0, 0, 0],
    read: false,
    reset: false,
};

// What is shown past the ten: no number lies within these limits.
const NOTHING: Shows = Shows {
    numbers: Limits { low: 1, high: 0 },
    beyond: false,
    none: false,
    places: false,
};

// The register at a place of the table; past its end one that no command takes.
pub fn register_at(index: usize) -> Register
    ensures { result ≡ register_of (entry index) }
{
    entry_or(&REGISTERS, index, NO_REGISTER)
}

// What V writes to the register at a place of the table; past its end nothing.
pub fn written_at(index: usize) -> Writes
    ensures { result ≡ (entry index).written }
{
    entry_or(&WRITTEN, index, Writes::Nothing)
}

// What a line of the register at a place of the table can show; past the ten nothing.
#[tactic(auto, unfolding(crate::specs::Shows::shows_at))]
pub fn shows_at(index: usize) -> Shows
    ensures { result ≡ shows_at index }
{
    entry_or(&SHOWN, index, NOTHING)
}

// The place of a letter in the table, and past its end for any other byte. The table says of that place that no command takes it, so nobody
// has to ask whether there is one.
pub fn index_of(letter: u8) -> usize
    ensures { result ≡ index letter }
{
    match letter {
        b'A'..=b'J' => usize::from(letter - b'A'),
        _ => COUNT,
    }
}
