// A scale that inputs can be read by.
ghost use Rattle.std.specs.Prelude.{◌≡◌, true};
ghost use Rattle.segments.specs.Segments.{can_scale, read};
ghost use Rattle.segments.specs.declared.Segments.{Segments};

use reading::Reading;
use segments::Segments;
use std::marker::Model;

// What reading asks of a scale holds of the one that is held. So no call asks for it, and a line is told its reading by the scale where it
// stands: no line copies it.
#[derive(Clone, Copy)]
pub struct Held {
    pub scale: Segments,
}

impl Model for Held {
    ghost Value = { Segments };

    ghost view = { λ held. held.scale };

    ghost inverse = { λ scale. record { scale = scale } };

    ghost invariant = { λ held. can_scale held.scale ≡ true };
}

impl Held {
    // A scale that passes the test is held.
    pub fn new(scale: Segments) -> Held
        requires { can_scale scale ≡ true }
        ensures { result ≡ scale }
    {
        Held { scale }
    }

    // The reading of an input.
    pub(crate) fn read(&self, input: i32) -> Reading
        ensures { result ≡ read self.now input }
    {
        scaling::read(&self.scale, input)
    }
}
