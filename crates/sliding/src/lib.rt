// The lines of the board, and what a slider reaches along them, with no table.
#![tactic(auto)]

pub mod inner; // inner.rt: what a slider reaches past the men on its lines
