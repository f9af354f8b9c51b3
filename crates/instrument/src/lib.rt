// The instrument: what a meter has measured, its alarms, and how it drives its outputs. It holds no configuration and no receiver, so it
// cannot see who looks at it: samples, keys, V and R change it, and T and P take it as it is and give what is shown. What is said of it
// stands in specs/; the functions stand in `operating`, so that a claim is checked without them.
#![tactic(auto)]

use alarm::Alarm;
use measured::Measured;
use outputs::Outputs;

// All that is kept from one event to the next, the receiver apart: what was measured, the alarms, and how the outputs are driven.
#[derive(Clone, Copy)]
pub struct Instrument {
    pub measured: Measured,
    pub alarms: [Alarm; 4],
    pub outputs: Outputs,
}
