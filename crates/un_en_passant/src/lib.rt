// The second half of the pawn's `legals` in the Rust's piece_type.rs: un-en-passant.
#![tactic(auto)]

pub mod inner; // inner.rt: the entries, pushed onto a list
