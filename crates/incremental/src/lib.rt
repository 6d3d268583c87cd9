// The Rust's `make_retraction_new`, whole, as a definition on sets (specs/), and that it gives the Laws' un-made board (proofs/). No code here.
#![tactic(auto)]
