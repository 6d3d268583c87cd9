// `legals` of the king in the Rust's piece_type.rs: its steps, then un-castling.
#![tactic(auto)]

pub mod inner; // inner.rt: the entries, pushed onto a list
