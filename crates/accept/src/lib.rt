// Refusals 1 to 6 of a position.
#![tactic(auto)]

pub mod inner; // inner.rt: the refusals in order; inner/refusals.rt: 2 to 5 one by one
