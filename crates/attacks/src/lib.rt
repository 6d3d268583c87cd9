// Which men attack a square.
#![tactic(auto)]

pub mod inner; // inner.rt: the attackers of a square, by colour
