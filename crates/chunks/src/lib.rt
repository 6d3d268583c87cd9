// A chunk of bytes cut at a newline: what stands before it goes into a line's buffer, as far as there is room.
#![tactic(auto)]

pub mod inner; // inner.rt: the search for the newline, and the cut at it

// How the bytes of a line end: not yet, at a newline, at the end of the input, or at a read that failed.
#[derive(Clone, Copy)]
pub enum Ending {
    Open,
    Newline,
    Over,
    Failed,
}

// A line on its way into the line's buffer, and the unread bytes behind it.
#[derive(Clone, Copy)]
pub struct Part {
    pub at: usize,
    pub end: usize,
    pub len: usize,
    pub long: bool,
    pub ending: Ending,
}
