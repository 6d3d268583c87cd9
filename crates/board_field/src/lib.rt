// A board as a field of a question to `ask`, or of its answer.
#![tactic(auto)]

pub mod inner; // inner.rt: by its text, or by the raw fields of any board
