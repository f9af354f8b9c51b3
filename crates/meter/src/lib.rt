// The meter: a configuration, the instrument and the receiver, and the four calls that answer every configuration, sample, key and
// byte. Nothing is left to the caller to check first.
#![tactic(auto)]

mod door;
pub mod slices;

ghost use Rattle.std.specs.Prelude.{◌≡◌};
ghost use Rattle.effect.specs.Able.{Able};
ghost use Rattle.effect.specs.Effect.{settle};
ghost use Rattle.meter.specs.Meter.{powered, powered_up, sampled, keyed, heard_effect, received};

use answer::Answer;
use config::{Config, Talking, Working};
use door::{is_sound, is_started};
use effect::Settled;
use instrument::Instrument;
use receiver::{Kind, Receiver};
use segments::Segments;

// What a meter holds of its configuration: the scale as segments, what works on a reading, and what talks. The setpoints are the alarms'.
#[derive(Clone, Copy)]
pub struct Held {
    pub scale: Segments,
    pub working: Working,
    pub talking: Talking,
}

#[derive(Clone, Copy)]
pub struct Meter {
    pub config: Held,
    pub instrument: Instrument,
    pub receiver: Receiver,
}

// What a call gives back: its answer, and the meter afterwards.
#[derive(Clone, Copy)]
pub struct Outcome {
    pub answer: Answer,
    pub meter: Meter,
}

// A meter at power-up, with the scale that was made of its configuration. The setpoints go to the alarms.
fn fresh(scale: Segments, config: Config) -> Meter
    ensures { result ≡ powered scale config }
{
    Meter {
        config: Held {
            scale,
            working: config.working,
            talking: config.talking,
        },
        instrument: operating::powered_up(config.setpoints),
        receiver: receiver::power_up(),
    }
}

// `*` or `$`: too long, then what the string tells.
fn end(
    talking: Talking,
    working: Working,
    i: Instrument,
    held: Receiver,
    buffer: &mut [u8],
    place: usize,
) -> Settled
    requires { Able talking working i }
    ensures value { result ≡ (settle i (heard_effect talking working i held) buffer.old place).settled }
    ensures buffer_after { buffer.new ≡ (settle i (heard_effect talking working i held) buffer.old place).buffer }
{
    if receiver::is_over(held.length) {
        return Settled {
            answer: Answer::TooLong,
            instrument: i,
        };
    }
    let parsed = command::parse_held(&held.bytes, held.length);
    effect::tell(talking, working, i, parsed, buffer, place)
}

impl Meter {
    // A meter with a configuration: started with answer 0, or refused with the number of the first broken rule.
    pub fn power_up(config: Config) -> Outcome
        ensures { result ≡ powered_up config }
    {
        match config::judged(config) {
            Ok(()) => Outcome {
                answer: Answer::Done,
                meter: fresh(scaling::made(config.scale), config),
            },
            Err(rule) => Outcome {
                answer: Answer::Refused(rule.number()),
                meter: fresh(scaling::none(), config::nothing()),
            },
        }
    }

    // One sample: the reading of the input, and all that is made of it.
    #[tactic(auto, unfolding(crate::specs::Door::sound))]
    pub fn sample(mut self, input: i32) -> Outcome
        ensures { result ≡ sampled self input }
    {
        if !is_sound(&self.config, self.instrument) {
            return Outcome {
                answer: Answer::NotStarted,
                meter: self,
            };
        }
        let reading = scaling::read(&self.config.scale, input);
        self.instrument = operating::sampled(self.config.working, self.instrument, reading);
        Outcome {
            answer: Answer::Done,
            meter: self,
        }
    }

    // One key. A reply goes into the buffer from the place on.
    #[tactic(auto, unfolding(crate::specs::Door::sound))]
    pub fn key(mut self, number: i32, buffer: &mut [u8], place: usize) -> Outcome
        ensures value { result ≡ (keyed self number buffer.old place).outcome }
        ensures buffer_after { buffer.new ≡ (keyed self number buffer.old place).buffer }
    {
        // one end for both: with an end for each, the meter is copied at each
        let answer = if is_sound(&self.config, self.instrument) {
            let settled = effect::press(
                self.config.talking,
                self.config.working,
                self.instrument,
                number,
                buffer,
                place,
            );
            self.instrument = settled.instrument;
            settled.answer
        } else {
            Answer::NotStarted
        };
        Outcome {
            answer,
            meter: self,
        }
    }

    // One received byte. A reply goes into the buffer from the place on.
    #[tactic(auto, unfolding(crate::specs::Door::sound))]
    pub fn byte(mut self, b: u8, buffer: &mut [u8], place: usize) -> Outcome
        ensures value { result ≡ (received self b buffer.old place).outcome }
        ensures buffer_after { buffer.new ≡ (received self b buffer.old place).buffer }
    {
        let kind = receiver::kind_of(b);
        // A string's end works on the instrument, any other byte only goes into the receiver.
        let is_open = match kind {
            Kind::End => is_sound(&self.config, self.instrument),
            Kind::Part | Kind::Drop => is_started(self.config.scale.step),
        };
        // One end for all kinds: with one for each the meter is copied three times more, and a stored byte takes 705 instructions, not 459.
        let answer = match kind {
            _ if !is_open => Answer::NotStarted,
            Kind::Part => {
                self.receiver = receiver::stored(self.receiver, b);
                Answer::Stored
            }
            Kind::Drop => {
                self.receiver = receiver::emptied(self.receiver);
                Answer::Dropped
            }
            Kind::End => {
                let settled = end(
                    self.config.talking,
                    self.config.working,
                    self.instrument,
                    self.receiver,
                    buffer,
                    place,
                );
                self.instrument = settled.instrument;
                self.receiver = receiver::emptied(self.receiver);
                settled.answer
            }
        };
        Outcome {
            answer,
            meter: self,
        }
    }
}
