// Replay: the move of a retraction made forward again.
#![tactic(auto)]

pub mod inner; // inner.rt: the men, rights and state after the move, and replay with refusal 12
