// Whether a board has a past of one to four plies, and the first one. Of the boards below it knows what their contracts say: it goes through the strict
// list by `strict::inner::strict_from`, and back by un-make, both over one lent table of squares between.
#![tactic(auto)]

ghost use Rattle.std.specs.Prelude.{◌≡◌};
ghost use Rattle.history.specs.Histories.{why_number, Answers};

use board::RetractableBoard;
use laws::ChessRetraction;
use refusal::Refusal;

pub mod inner; // inner.rt: the entry over a lent table
mod plies; // plies.rt: White's ply asks Black's, and Black's White's

// The latest ply first; beyond the depth that was asked stand zeros.
#[derive(Drop)]
pub struct History {
    pub first: ChessRetraction,
    pub second: ChessRetraction,
    pub third: ChessRetraction,
    pub fourth: ChessRetraction,
}

// Why nothing is told: 1 to 7 of a board, 19.
#[derive(Drop)]
pub enum Why {
    Board(Refusal),
    Depth,
}

// The number of a refusal.
pub fn number(why: Why) -> u8
    ensures { result ≡ why_number why }
{
    match why {
        Why::Board(r) => refusal::number(r),
        Why::Depth => 19,
    }
}

// Whether a board has a past of so many plies, and the first one: refusals 1 to 7, then 19.
pub fn history_of(b: RetractableBoard, depth: u8) -> Result<Option<History>, Why>
    ensures { Answers b depth result }
{
    let t = tables::between_table();
    inner::history_of(&t, b, depth)
}
