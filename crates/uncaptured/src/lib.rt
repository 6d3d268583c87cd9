// `uncaptured_candidates` of the Rust's retraction_gen.rs: where a man of each kind may have been uncaptured, by the count of men alone.
#![tactic(auto)]

pub mod inner; // inner.rt: the six masks
