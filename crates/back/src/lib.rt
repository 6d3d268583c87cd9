// How a board goes back by a retraction: the Rust's `make_retraction_new` as `incremental` says it, on the sets of the Laws' board.
#![tactic(auto)]

pub mod inner; // inner.rt: the statements that follow its tests
