// The men of a board that is held as arrays of sets, six by kind and two by colour.
#![tactic(auto)]

pub mod inner; // inner.rt: who stands where, and refusal 1
