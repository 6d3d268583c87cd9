// Un-make and replay of a board, over a lent table of squares between.
ghost use Rattle.std.specs.Prelude.{◌≡◌};
ghost use Rattle.geometry.specs.Lines.{IsBetween};
ghost use Rattle.refusal.specs.Refusals.{nothing_refused};
ghost use Rattle.board.specs.Moving.{unmade_on};
ghost use Rattle.board.specs.inner.Gates.{Kept, boarded_of, unmake_gate, replay_gate, replayed_board};

use super::super::{Boarded, RetractableBoard};
use laws::ChessRetraction;
use position::Positioned;
use refusal::Verdict;

// The board of an answer: union, checkers and pins are worked out afresh.
fn boarded(t: &[u64; 4096], u: Positioned) -> Boarded
    requires { IsBetween t.now × Kept u.verdict u.position }
    ensures { result ≡ boarded_of u }
{
    let v = u.verdict;
    let p = u.position;
    super::worked_after(t, v, p)
}

// Refusals 1 to 5 and 7: the move that is replayed may leave a check.
pub fn replay_gate(t: &[u64; 4096], b: RetractableBoard) -> Verdict
    requires { IsBetween t.now }
    ensures { result ≡ replay_gate b }
{
    let p = super::position_of(b);
    let v = accept::inner::five(p);
    super::stale_after(t, v, b)
}

// What un-make refuses: 1 to 7, then 9 to 12 of the position.
pub fn unmake_gate(t: &[u64; 4096], b: RetractableBoard, r: ChessRetraction) -> Verdict
    requires { IsBetween t.now }
    ensures { result ≡ unmake_gate b r }
{
    let v = super::gate(t, b);
    match v {
        Err(w) => Err(w),
        Ok(()) => {
            let p = super::position_of(b);
            let u = unmake::inner::unmake(t, p, r);
            u.verdict
        }
    }
}

// The board before a retraction that passes 1 to 7 and 9 to 12: its sets go back as the Laws' board's.
pub fn unmade(t: &[u64; 4096], b: RetractableBoard, r: ChessRetraction) -> RetractableBoard
    requires { IsBetween t.now × (unmake_gate b r ≡ nothing_refused) }
    ensures { result ≡ unmade_on b r }
{
    let today = super::to_laws(b);
    let earlier = back::inner::moved(today, r);
    let z = back::inner::searched(t, earlier);
    super::from_laws(z)
}

// Replay: refusals 1 to 5, 7 and 12, or the board after the move.
pub fn replayed(t: &[u64; 4096], b: RetractableBoard, r: ChessRetraction, kind: u8) -> Boarded
    requires { IsBetween t.now }
    ensures { result ≡ replayed_board b r kind }
{
    let v = replay_gate(t, b);
    match v {
        Err(w) => super::board_by(Err(w), super::super::no_board()),
        Ok(()) => {
            let p = super::position_of(b);
            let u = replay::inner::replay(t, p, r, kind);
            boarded(t, u)
        }
    }
}
