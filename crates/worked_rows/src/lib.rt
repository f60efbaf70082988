//! Worked rows: short histories, by hand and drawn by an independent model, of which the definitions of a cluster say what they
//! should. Each is computed from the definitions by the check. Nothing rests on them.
#![tactic(auto)]
