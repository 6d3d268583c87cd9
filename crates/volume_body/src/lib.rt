// The body of a problem in a volume: a board's men, turn, rights and state in 34 bytes, written and read. Nothing is tested but the form: whether the men
// may stand so is for the crates above. What a body is stands in specs/Layout, and which bytes are none in specs/Words.
#![tactic(auto)]

pub mod inner; // inner.rt: writing a body into a line, and reading one
