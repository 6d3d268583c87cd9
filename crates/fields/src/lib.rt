// What the program `ask` reads of a question.
#![tactic(auto)]

pub mod inner; // inner.rt: numbers, sets, rights, states and retractions
