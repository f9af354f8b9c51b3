// The numbered answers of document 01: one case for each row of its table, and the numbers that the table gives them. Its row 7 is
// withdrawn, since no number that is written lies outside its range; the others keep their numbers.
#![tactic(auto)]

ghost use Rattle.std.specs.Prelude.{◌≡◌};
ghost use Rattle.answer.specs.Answer.{number, value};

#[derive(Clone, Copy)]
pub enum Answer {
    Done,
    Stored,
    Replied(usize),
    OtherNode,
    BadForm,
    Dropped,
    TooLong,
    InAutomatic,
    NoRoom,
    UnknownKey,
    Refused(u32),
    NotStarted,
}

// The answer's own number.
pub fn number(a: Answer) -> u64
    ensures { result ≡ number a }
{
    match a {
        Answer::Done => 0,
        Answer::Stored => 1,
        Answer::Replied(_) => 2,
        Answer::OtherNode => 3,
        Answer::BadForm => 4,
        Answer::Dropped => 5,
        Answer::TooLong => 6,
        Answer::InAutomatic => 8,
        Answer::NoRoom => 9,
        Answer::UnknownKey => 10,
        Answer::Refused(_) => 11,
        Answer::NotStarted => 12,
    }
}

// The number that it carries: a reply's length, the broken rule, or 0.
pub fn value(a: Answer) -> u64
    ensures { result ≡ value a }
{
    match a {
        Answer::Replied(n) => n as u64,
        Answer::Refused(rule) => u64::from(rule),
        Answer::Done
        | Answer::Stored
        | Answer::OtherNode
        | Answer::BadForm
        | Answer::Dropped
        | Answer::TooLong
        | Answer::InAutomatic
        | Answer::NoRoom
        | Answer::UnknownKey
        | Answer::NotStarted => 0,
    }
}
