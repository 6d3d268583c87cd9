// The verb `gate` of `ask`.
#![tactic(auto)]

pub mod inner; // inner.rt: every entry's refusal of a board of any fields
