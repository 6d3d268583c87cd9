// The strict list of a board: demand 3.
#![tactic(auto)]

ghost use Rattle.strict.specs.Demand.{Lists, Counts, Answers};
ghost use Rattle.strict.specs.Onward.{Finds};

use board::RetractableBoard;
use laws::ChessRetraction;
use refusal::Refusal;
use slots::Unlisted;

pub mod inner; // inner.rt: the same over a lent table, and the position of an accepted board and its strict list

// A retraction with its place in the order of all of them.
#[derive(Drop)]
pub struct Placed {
    pub place: usize,
    pub retraction: ChessRetraction,
}

// The strict retractions of a board into slots, packed, by source, target, uncaptured man and mark: refusals 1 to 7, then 13.
pub fn strict_into(b: RetractableBoard, slots: &mut [u16]) -> Result<usize, Unlisted>
    ensures { Lists b slots.old result slots.new }
{
    let t = tables::between_table();
    inner::strict_into(&t, b, slots)
}

// How many strict retractions a board has.
pub fn strict_count(b: RetractableBoard) -> Result<usize, Refusal>
    ensures { Counts b result }
{
    let t = tables::between_table();
    inner::strict_count(&t, b)
}

// Whether a board has a last move at all.
pub fn last_move(b: RetractableBoard) -> Result<bool, Refusal>
    ensures { Answers b result }
{
    let t = tables::between_table();
    inner::last_move(&t, b)
}

// The first strict retraction of a board from a place of the order on: refusals 1 to 7. Whoever goes on behind the place found has gone through the
// strict list and kept none of it.
pub fn strict_from(b: RetractableBoard, start: usize) -> Result<Option<Placed>, Refusal>
    ensures { Finds b start result }
{
    let t = tables::between_table();
    inner::strict_from(&t, b, start)
}
