// What an extract may say of a meter, from its history alone: specs/Extracts.antt. The sentences themselves stand in the rooms of total and
// alarm, and hold of any history; here a meter's events are told apart for them, and the proofs tie them to the meter.
#![tactic(auto)]
