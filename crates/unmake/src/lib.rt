// Un-make of a retraction: refusals 9 to 12, and the earlier position.
#![tactic(auto)]

pub mod inner; // inner.rt: refusals 9 to 12 and un-make; inner/back.rt: how men, rights and state go back
