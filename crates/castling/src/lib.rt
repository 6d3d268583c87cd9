// Which men forbid a castling: those that attack the squares of the king's way, on the board before it.
#![tactic(auto)]

ghost use Rattle.std.specs.Prelude.{◌≡◌, ◌++◌};
ghost use Rattle.refusal.specs.Said.{behind};
ghost use Rattle.board.specs.Gate.{pos_on, board_tests};
ghost use Rattle.castling.specs.Castlings.{uncastle_tests, way_before, castling_says};

use board::RetractableBoard;
use laws::Side;
use refusal::Refusal;

pub mod inner; // inner.rt: the un-castling, and the king's way before it

// The opponent's men that attack the square that a castling king leaves, the one that it crosses, and the one that it reaches.
#[derive(Drop)]
pub struct KingsWay {
    pub home: u64,
    pub crossed: u64,
    pub reached: u64,
}

// The attackers on the way of the king that castled last: refusals 1 to 7, then 9 to 12 of the un-castling on that side.
pub fn attackers(b: RetractableBoard, side: Side) -> Result<KingsWay, Refusal>
    ensures { castling_says result ≡ behind (board_tests b ++ uncastle_tests (pos_on b) side) (castling_says (Ok (way_before (pos_on b) side))) }
{
    let t = tables::between_table();
    let v = board::inner::gate(&t, b);
    match v {
        Err(w) => Err(w),
        Ok(()) => {
            let p = board::inner::position_of(b);
            inner::uncastled(&t, p, side)
        }
    }
}
