// A display as a binary32: specs/Binary32.antt. There is no function here: the one that divides stands in `dividing`, so that a claim is checked
// without it.
#![tactic(auto)]
