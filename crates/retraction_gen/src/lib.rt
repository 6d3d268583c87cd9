// The cursor over a board's retractions: the Rust's retraction_gen.rs.
#![tactic(auto)]

ghost use Rattle.board.specs.Gate.{board_tests};
ghost use Rattle.retraction_gen.specs.Making.{masks_on, list_tests, cursor_on, Makes, Masked};
ghost use Rattle.retraction_gen.specs.Cursors.{Steps};

use board::RetractableBoard;
use laws::ChessRetraction;
use refusal::Refusal;
use retraction_list::SourceAndTargets;

pub mod inner; // inner.rt: making the cursor, and one turn of it

// The entries, 47 at most; the place of the entry in work and the number of its uncapture; the squares of each uncapture.
#[derive(Clone, Copy)]
pub struct RetractionGen {
    pub entries: [SourceAndTargets; 47],
    pub len: usize,
    pub index: usize,
    pub uncaptured: u8,
    pub masks: [u64; 6],
}

// The cursor moved on, and its answer.
#[derive(Drop)]
pub struct Stepped {
    pub cursor: RetractionGen,
    pub next: Option<ChessRetraction>,
}

// What one turn of `next` comes to.
#[derive(Drop)]
pub enum Turn {
    Again,
    Found(ChessRetraction),
    Over,
}

#[derive(Drop)]
pub struct Turned {
    pub cursor: RetractionGen,
    pub turn: Turn,
}

impl RetractionGen {
    // The cursor of a board: refusals 1 to 7, then 8.
    pub fn new_legal(b: RetractableBoard) -> Result<RetractionGen, Refusal>
        ensures { Makes (list_tests b) (cursor_on b) result }
    {
        let t = tables::between_table();
        board::inner::gate(&t, b)?;
        inner::made_from(&t, b)
    }

    // The next retraction, or the end. A malformed cursor is at the end.
    pub fn next(mut self) -> Stepped
        ensures { Steps self result }
    {
        if !inner::well_formed(self) {
            return Stepped {
                cursor: self,
                next: None,
            };
        }
        loop {
            let t = inner::one_turn(self);
            let turn = t.turn;
            self = t.cursor;
            match turn {
                Turn::Again => {}
                Turn::Found(r) => {
                    return Stepped {
                        cursor: self,
                        next: Some(r),
                    };
                }
                Turn::Over => {
                    return Stepped {
                        cursor: self,
                        next: None,
                    };
                }
            }
        }
    }
}

// The squares where each man may have been uncaptured: refusals 1 to 7.
pub fn uncaptured_candidates(b: RetractableBoard) -> Result<[u64; 6], Refusal>
    ensures { Masked (board_tests b) (masks_on b) result }
{
    let t = tables::between_table();
    board::inner::gate(&t, b)?;
    Ok(uncaptured::inner::candidates(board::inner::position_of(b)))
}
