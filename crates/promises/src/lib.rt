// What is promised of the four public calls together: specs/Demand.antt. The proofs are in proofs/.
#![tactic(auto)]
