// The verbs of `ask` about volumes.
#![tactic(auto)]

pub mod inner; // inner.rt: each verb; inner/bytes.rt: bytes in hexadecimal, read and put; inner/refusals.rt: why a volume is refused, put
