// A board in the words of a place of the study table, and back. docs/STUDY_TABLE.md has them word by word.
#![tactic(auto)]

pub mod inner; // inner.rt: words of a board, a board from words, and words in a lent slice

// How many words a place has: its mark, and a board.
pub const WORDS: usize = 16;
