// The 12 data bytes of a reply line, read: a number with its decimal places, a mark, or neither.
#![tactic(auto)]

use reading::Reading;

// What data bytes say: a number with its decimal places, or a mark, whose places are 0.
#[derive(Clone, Copy)]
pub struct Data {
    pub places: u8,
    pub shown: Reading,
}

// What bytes make of a number as they come, from the left: spaces, and then a minus where one stands there; the digits before a point; the
// digits behind it, and how many they are; or no number, whatever comes behind. Where a number is below zero, the first of them says so.
// No number is a state as the others are, and no Option of them: each byte makes a state of a state, and no step ends the walk.
#[derive(Clone, Copy)]
pub enum Figure {
    Front(bool),
    Whole(bool, u32),
    Fraction(bool, u32, u8),
    Not,
}
