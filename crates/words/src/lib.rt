// What a reader is told of a retraction: its line in words.
#![tactic(auto)]

pub mod inner; // inner.rt: bytes, numbers, sides and the words of a retraction, put behind the first bytes of a buffer
