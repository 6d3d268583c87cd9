// Verbs of `ask` about the lists.
#![tactic(auto)]

pub mod inner; // inner.rt: which verb, and the answer; inner/counts.rt, inner/slices.rt
