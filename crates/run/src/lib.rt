// Runs: how many samples in succession have met a condition, and when a delay is complete. Alarms and max and min count by it.
#![tactic(auto)]

ghost use Rattle.std.specs.Prelude.{◌≡◌};
ghost use Rattle.run.specs.Run.{samples, counted};

// What a sample makes of a run.
#[derive(Clone, Copy)]
pub enum Run {
    // The condition did not hold.
    Broken,
    // It held, and the run is now so long.
    Going(u32),
    // It held, and with this sample the run has reached its count.
    Complete,
}

// The count of a delay in tenths of a second: twenty samples come in a second, and one at least is counted.
pub fn samples(tenths: i32) -> u32
    ensures { result ≡ samples tenths }
{
    if tenths < 1 { 1 } else { 2 * (tenths as u32) }
}

// One sample. A run is raised only where it stays below its count, so every value of it is taken as it is.
#[tactic(auto, unfolding(crate::specs::Run::counted))]
pub fn counted(run: u32, holds: bool, count: u32) -> Run
    ensures { result ≡ counted run holds count }
{
    if !holds {
        Run::Broken
    } else if run < count.saturating_sub(1) {
        Run::Going(run + 1)
    } else {
        Run::Complete
    }
}
