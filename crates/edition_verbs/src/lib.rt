// Verbs of `ask` that name an edition.
#![tactic(auto)]

pub mod inner; // inner.rt: which verb, and the answer; inner/attacked.rt, inner/histories.rt, inner/lists.rt, inner/written.rt
