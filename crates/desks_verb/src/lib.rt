// The verb `desks` of `ask`.
#![tactic(auto)]

pub mod inner; // inner.rt: calls of two desks on a study table
