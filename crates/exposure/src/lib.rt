// Where a man that goes back leaves a king attacked.
#![tactic(auto)]

pub mod inner; // inner.rt: the squares on which it does, all at once
