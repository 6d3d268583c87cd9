// The pawn's `legals` in the Rust's piece_type.rs, whole: un-pushes and uncaptures, un-promotions among them, then un-en-passant.
#![tactic(auto)]

pub mod inner; // inner.rt: the entries, pushed onto a list
