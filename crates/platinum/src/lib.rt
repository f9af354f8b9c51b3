// A platinum sensor's table and what is read by it, as claims alone. The functions stand in `sensing`, so that a claim is checked
// without them.
#![tactic(auto)]
