// Reply lines as a collector reads them. What is said of it stands in specs/; no function reads yet.
#![tactic(auto)]

use reading::Reading;

// Which reply is expected: a full line, an abbreviated one, or a block of full lines.
#[derive(Clone, Copy, Debug, PartialEq, Eq)]
pub enum Kind {
    Full,
    Abbreviated,
    Block,
}

// Where a line says that it comes from.
#[derive(Clone, Copy, Debug, PartialEq, Eq)]
pub struct Origin {
    pub node: u8,
    pub register: usize,
}

// What a line says: where it comes from, which an abbreviated one does not say, and a number with its decimal places, or a mark, whose
// places are 0.
#[derive(Clone, Copy)]
pub struct Line {
    pub origin: Option<Origin>,
    pub places: u8,
    pub shown: Reading,
}

// Why bytes are no line: no line end; a wrong length; no mnemonic that can stand there; node or data that cannot; or no more bytes.
#[derive(Clone, Copy, Debug, PartialEq, Eq)]
pub enum Refusal {
    NoEnd,
    Length,
    Mnemonic,
    NodeOrData,
    Missing,
}

// What a reader answers: 0 and the lines, so many of them, or the number of a refusal and no lines. All places behind the last line hold
// one value. Refusal and lines stand beside each other because document 02 asks for this struct.
#[derive(Clone, Copy)]
pub struct Answer {
    pub refusal: u8,
    pub count: usize,
    pub lines: [Line; 8],
}

// What the earlier lines of a block leave open: the registers that can still come, by the place behind the last one that came, and the
// node and the places of the input, as soon as a line has told them.
#[derive(Clone, Copy)]
pub struct Earlier {
    pub next: usize,
    pub node: Option<u8>,
    pub places: Option<u8>,
}
