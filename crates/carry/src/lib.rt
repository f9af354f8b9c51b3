// Demand 3 tied to the code: the events that `meter::slices::carry_out` is given make a history (specs/CarriedOut.antt), and what is
// said of histories holds of what it leaves. The proof is in proofs/.
#![tactic(auto)]
