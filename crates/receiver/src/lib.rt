// The receiver: what has come in since a string's beginning, at most 32 bytes of it.
// Every value of the struct means something, so that no condition has to travel with it: with a length of at most 32 the first
// bytes, as many as it says, are the string so far, and any greater length is the one state "too long". What stands behind the
// string is left from earlier ones and means nothing.
// At `*` and `$` the caller judges the string where it stands, and empties the receiver afterwards.
#![tactic(auto)]

ghost use Rattle.std.specs.Prelude.{◌≡◌};
ghost use Rattle.receiver.specs.Receiver.{kind, silent, over, store, emptied};

// The most bytes that a string may have before its end.
const LIMIT: usize = 32;

#[derive(Clone, Copy)]
pub struct Receiver {
    pub bytes: [u8; LIMIT],
    pub length: usize,
}

// What a byte does: it ends a string, it drops one, or it is part of one.
#[derive(Clone, Copy)]
pub enum Kind {
    End,
    Drop,
    Part,
}

pub fn kind_of(b: u8) -> Kind
    ensures { result ≡ kind b }
{
    match b {
        b'*' | b'$' => Kind::End,
        b'\r' | b'\n' => Kind::Drop,
        _ => Kind::Part,
    }
}

// The receiver at power-up.
pub fn power_up() -> Receiver
    ensures { result ≡ silent }
{
    Receiver {
        bytes: [0; LIMIT],
        length: 0,
    }
}

// Whether a receiver of this length holds a string that is too long.
pub fn is_over(length: usize) -> bool
    ensures { result ≡ over length }
{
    LIMIT < length
}

// A byte that is part of a string.
pub fn stored(mut r: Receiver, b: u8) -> Receiver
    ensures { result ≡ store r b }
{
    if r.length < LIMIT {
        r.bytes[r.length] = b;
        r.length += 1;
    } else {
        r.length = LIMIT + 1;
    }
    r
}

// Nothing is held any more: the next byte begins a string.
pub fn emptied(r: Receiver) -> Receiver
    ensures { result ≡ emptied r }
{
    Receiver { length: 0, ..r }
}
