// A scale as a meter holds it: its segments, each with its start, its rise and its run. What is said of it stands in specs/; the
// functions stand in `scaling`, so that a claim is checked without them.
#![tactic(auto)]

use config::Source;

// The rounding step, the source of the reading, the last segment in use, and at place k of each list what segment k has: the input and the
// display that it starts at, how far the display rises in it (or falls) and over which run of the input. Every place that is not in use
// has the same, and of a platinum sensor none is in use. The source and the last segment stand side by side, where they take no more room
// than the second would alone.
//
// Four lists, not one of structs: with it the test at the door takes 99 instructions where it takes 85, a sample 22 more, one in bulk 9 more.
#[derive(Clone, Copy)]
pub struct Segments {
    pub step: i32,
    pub source: Source,
    pub last: u8,
    pub inputs: [i32; 15],
    pub displays: [i32; 15],
    pub rises: [i32; 15],
    pub runs: [i32; 15],
}
