// `legals` of the Rust's piece_type.rs for the knight and the sliders.
#![tactic(auto)]

pub mod inner; // inner.rt: the entries, pushed onto a list
