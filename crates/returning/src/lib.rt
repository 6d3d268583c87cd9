// The men that may come back to a square without a ninth soul.
#![tactic(auto)]

pub mod inner; // inner.rt: of the side to move by their numbers, and of the retractor by one test
