// Demand 3 over whole histories: specs/Demand.antt. What is kept of a history, what is claimed and the worked example are in specs/, the
// proofs in proofs/.
#![tactic(auto)]
