// The souls of a side.
#![tactic(auto)]

pub mod inner; // inner.rt: souls by the count of ones
