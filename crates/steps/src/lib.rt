// The steps of men that do not slide, which the Rust takes from the crate `chess`: no table, since shifts of a set give them.
#![tactic(auto)]

pub mod inner; // inner.rt: steps of knights, kings and pawns by masks and shifts
