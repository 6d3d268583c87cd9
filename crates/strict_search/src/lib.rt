// The strict retractions of a position, place after place.
#![tactic(auto)]

pub mod inner; // inner.rt: the strict places of a position in order, counted and written
