// The first field of a text, the men: one rank, eight ranks, and the sets that 64 squares say. What a text is stands in specs/.
#![tactic(auto)]

pub mod inner; // inner.rt: printing into a line, and reading letters into sets

// A text by value: its first `len` bytes.
#[derive(Clone, Copy)]
pub struct Line {
    pub bytes: [u8; 81],
    pub len: usize,
}

// A line, and how many empty squares it does not show yet (the Rust's `count`).
#[derive(Drop)]
pub struct Run {
    pub line: Line,
    pub run: u8,
}

// Six sets of squares by kind and two by colour.
#[derive(Drop)]
pub struct Sets {
    pub pieces: [u64; 6],
    pub colors: [u64; 2],
}
