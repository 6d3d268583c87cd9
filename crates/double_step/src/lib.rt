// Whether the double step that a position names was possible.
#![tactic(auto)]

pub mod inner; // inner.rt: the step put back, and the king that waited
