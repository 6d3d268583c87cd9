// The strict retractions of one source, as sets of targets.
#![tactic(auto)]

pub mod inner; // inner.rt: the sets of a source; inner/coming.rt, inner/asked.rt, inner/calm.rt: what they are made of

// The targets of a source: unmarked and marked, with nothing uncaptured and with a man; and which men.
#[derive(Clone, Copy)]
pub struct Targets {
    pub plain: u64,
    pub taking: u64,
    pub marked: u64,
    pub both: u64,
    pub men: u64,
}

// The targets of a source with nothing uncaptured, and with a man.
#[derive(Drop)]
pub struct Half {
    pub calm: u64,
    pub taking: u64,
}
