// Which meters are started, and which are sound.
ghost use Rattle.std.specs.Prelude.{◌≡◌, pos};
ghost use Rattle.std.specs.Int.Signed.{lt_z};
ghost use Rattle.meter.specs.Door.{workable};

use crate::Held;
use instrument::Instrument;

// Whether a meter with this rounding step was started: a refusal leaves none.
pub fn is_started(step: i32) -> bool
    ensures { result ≡ lt_z (pos 0) step }
{
    0 < step
}

// Whether a meter that holds these settings and this instrument has all that scaling, counting and showing lean on.
pub fn is_sound(config: &Held, instrument: Instrument) -> bool
    ensures { result ≡ workable config.now instrument }
{
    effect::is_able(config.talking, config.working, instrument) && scaling::can_scale(&config.scale)
}
