// What the program `ask` puts into an answer.
#![tactic(auto)]

pub mod inner; // inner.rt: bytes, numbers, sets and retractions put behind the first bytes
