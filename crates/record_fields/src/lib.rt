// What a six-field record has beside the text of a position: the cut at a last space, the two counters, and the square passed over in place of the
// pawn's own. What they are stands in specs/Counters and specs/Passed.
#![tactic(auto)]

pub mod inner; // inner.rt: the cut, the counters, and the states
