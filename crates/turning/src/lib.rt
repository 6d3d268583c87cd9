// A board turned into the other edition: the same men, turn and rights, and what its state says there.
#![tactic(auto)]

ghost use Rattle.board.specs.Gate.{board_tests};
ghost use Rattle.board.specs.Said.{Boards};
ghost use Rattle.turning.specs.Turned.{turned_on};

use board::{Boarded, RetractableBoard};

pub mod inner; // inner.rt: the state and the board, turned

// The board in the other edition: refusals 1 to 7.
pub fn turn(b: RetractableBoard) -> Boarded
    ensures { Boards (board_tests b) (turned_on b) result }
{
    let t = tables::between_table();
    let v = board::inner::gate(&t, b);
    match v {
        Err(w) => board::inner::board_by(Err(w), board::no_board()),
        Ok(()) => {
            let other = inner::turned(b);
            board::inner::board_by(Ok(()), other)
        }
    }
}
