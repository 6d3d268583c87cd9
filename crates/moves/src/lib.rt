// A step by the Laws, checks ignored: which man can go where. It serves refusal 12 of un-make and of replay, and legality.
#![tactic(auto)]

pub mod inner; // inner.rt: the way of a move, the step of each man, and the whole test
