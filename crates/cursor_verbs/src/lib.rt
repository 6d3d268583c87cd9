// Verbs of `ask` about a cursor.
#![tactic(auto)]

pub mod inner; // inner.rt: which verb, and the answer; inner/entries.rt, inner/presses.rt, inner/sequences.rt
