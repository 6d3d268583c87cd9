// `enumerate_retractions` of the Rust's retraction_gen.rs: the ported list of a board.
#![tactic(auto)]

pub mod inner; // inner.rt: the lists of what is seen of a board
