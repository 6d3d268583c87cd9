// The entry over a lent table of squares between.
ghost use Rattle.geometry.specs.Lines.{IsBetween};
ghost use Rattle.history.specs.Histories.{Answers};

use super::{History, Why};
use board::RetractableBoard;

// The fewest plies that are asked for.
const LEAST: u8 = 1;

// The most.
const MOST: u8 = 4;

// Refusals 1 to 7, then 19, then the ply of the side that has moved last.
pub fn history_of(t: &[u64; 4096], b: RetractableBoard, depth: u8) -> Result<Option<History>, Why>
    requires { IsBetween t.now }
    ensures { Answers b depth result }
{
    board::inner::gate(t, b).map_err(Why::Board)?;
    if !(LEAST..=MOST).contains(&depth) {
        return Err(Why::Depth);
    }
    Ok(super::plies::last_ply(t, b, depth))
}
