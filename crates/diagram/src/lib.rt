// What a reader sees of a board: a diagram in text.
#![tactic(auto)]

pub mod inner; // inner.rt: squares, ranks and the whole diagram, put behind the first bytes of a buffer

// The men of a board, and the squares that a man came from and went to; 64 marks none.
#[derive(Clone, Copy)]
pub struct Drawing {
    pub pieces: [u64; 6],
    pub colors: [u64; 2],
    pub from: u8,
    pub to: u8,
}
