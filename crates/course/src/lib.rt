// A history as one part of a meter meets it: specs/Course.antt. There is no function here; the rooms of total and alarm say with it what holds of
// any history.
#![tactic(auto)]
