// Verbs of `ask` about one board.
#![tactic(auto)]

pub mod inner; // inner.rt: which verb, and the answer; inner/made.rt, inner/told.rt
