// Events as a caller holds them in slices, carried out by the public calls one after another. What is said of histories holds of what
// this function is given (the crate `carry`), and what the calls promise is used here, beside them.
ghost use Rattle.std.specs.Prelude.{◌≡◌};
ghost use Rattle.meter.specs.Slices.{carried_one, carried_out};

use crate::Outcome;

// One entry: kind 0 is a sample, 1 a key, 2 a byte where its value is one. These numbers are what callers write, so they stay numbers:
// any other kind encodes no event, and then the outcome before it stands, and the buffer is as it was.
#[tactic(auto, using(crate::proofs::Carrying::back), unfolding(crate::specs::Slices::carried_one))]
fn carry_one(before: Outcome, kind: u8, value: i32, place: usize, buffer: &mut [u8]) -> Outcome
    ensures value { result ≡ (carried_one (record { outcome = before; buffer = buffer.old }) kind value place).outcome }
    ensures buffer_after { buffer.new ≡ (carried_one (record { outcome = before; buffer = buffer.old }) kind value place).buffer }
{
    match kind {
        0 => before.meter.sample(value),
        1 => before.meter.key(value, buffer, place),
        2 => match u8::try_from(value) {
            Ok(b) => before.meter.byte(b, buffer, place),
            Err(_) => before,
        },
        _ => before,
    }
}

// Entries, oldest first, carried out one after another with one lent buffer, from the outcome that the caller has: that of power-up, or
// of the last call. There are as many as the shortest slice has; with none the outcome before them stands. What is given back is the
// outcome of the last event.
pub fn carry_out(
    before: Outcome,
    kinds: &[u8],
    values: &[i32],
    places: &[usize],
    buffer: &mut [u8],
) -> Outcome
    ensures value { result ≡ (carried_out (record { outcome = before; buffer = buffer.old }) kinds.now values.now places.now).outcome }
    ensures buffer_after { buffer.new ≡ (carried_out (record { outcome = before; buffer = buffer.old }) kinds.now values.now places.now).buffer }
{
    let mut last = before;
    for ((kind, value), place) in kinds.iter().zip(values).zip(places) {
        last = carry_one(last, *kind, *value, *place, buffer);
    }
    last
}
