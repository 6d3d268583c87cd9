// Squares in writing: the squares of a set ascending, with single spaces between, or a dash.
#![tactic(auto)]

pub mod inner; // inner.rt: a square's name, and the squares of a set
