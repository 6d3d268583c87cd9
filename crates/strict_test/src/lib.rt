// Whether a retraction is strict.
#![tactic(auto)]

pub mod inner; // inner.rt: the strict test of one retraction; inner/coming.rt: which squares a man can have come from
