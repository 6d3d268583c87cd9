// The verb `solution` of `ask`.
#![tactic(auto)]

pub mod inner; // inner.rt: a position, the lines of a solution, and the verdict on them
