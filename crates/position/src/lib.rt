// Positions by value: the men in arrays of sets, and what a move changes beside them. Union, checkers and pins are the board's.
#![tactic(auto)]

use laws::Position;
use refusal::Verdict;

pub mod inner; // inner.rt: a man put on a square, men by their numbers, and a refusal's answer

// What un-make and replay answer: the position is the empty one where the verdict refuses.
#[derive(Drop)]
pub struct Positioned {
    pub verdict: Verdict,
    pub position: Position,
}
