// Document 01's bench sheet: its cases marked ● are one table with one claim (specs/Sheet.antt), computed over the definitions that
// the public calls' contracts cite (proofs/Sheet.antt).
#![tactic(auto)]
