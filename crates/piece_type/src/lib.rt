// The Rust's piece_type.rs in its own order of statements, as definitions (specs/), and that the lists of officers, pawns, un_en_passant and kings
// are those (proofs/). No code here.
#![tactic(auto)]
