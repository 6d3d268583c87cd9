// The king of a side, its checkers and its pins.
#![tactic(auto)]

pub mod inner; // inner.rt: checkers, pins and refusal 6
