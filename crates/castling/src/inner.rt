// The un-castling of a position, and the king's way on the men that it leaves.
ghost use Rattle.std.specs.Prelude.{◌≡◌};
ghost use Rattle.geometry.specs.Lines.{IsBetween};
ghost use Rattle.laws.specs.Boards.{men_in, pos_at, Clean};
ghost use Rattle.refusal.specs.Said.{behind};
ghost use Rattle.castling.specs.Castlings.{uncastling, uncastle_tests, kings_way, way_before, castling_says};
ghost use Rattle.castling.specs.inner.Kings.{king_after};

use super::KingsWay;
use laws::{ChessRetraction, Color, Piece, Position, Side};
use refusal::{Refusal, Verdict};

// The castling of a colour, taken back.
fn taken_back(c: Color, side: Side) -> ChessRetraction
    ensures { result ≡ uncastling c side }
{
    let source = laws::inner::castling::king_to(c, side);
    let target = laws::inner::castling::king_home(c);
    ChessRetraction {
        source,
        target,
        uncaptured: 0,
        unpromotion: false,
    }
}

// What is refused already, else 12 where it is no king that goes back.
fn king_after(v: Verdict, p: Position, c: Color, sq: u8) -> Verdict
    requires { Clean p.pieces p.colors }
    ensures { result ≡ king_after v (men_in p) c sq }
{
    match v {
        Err(w) => Err(w),
        Ok(()) => {
            let pieces = p.pieces;
            let colors = p.colors;
            if men::inner::stands(pieces, colors, Piece::King, c, sq) {
                return Ok(());
            }
            Err(Refusal::Step)
        }
    }
}

fn kings_way(e: Position, c: Color, side: Side) -> KingsWay
    requires { Clean e.pieces e.colors }
    ensures { result ≡ kings_way (men_in e) c side }
{
    let pieces = e.pieces;
    let colors = e.colors;
    let enemy = geometry::other(c);
    let from = laws::inner::castling::king_home(c);
    let over = laws::inner::castling::rook_to(c, side);
    let to = laws::inner::castling::king_to(c, side);
    let home = attacks::inner::attackers(pieces, colors, from, enemy);
    let crossed = attacks::inner::attackers(pieces, colors, over, enemy);
    let reached = attacks::inner::attackers(pieces, colors, to, enemy);
    KingsWay {
        home,
        crossed,
        reached,
    }
}

// The king's way before the castling: refusals 9 to 12.
pub fn uncastled(t: &[u64; 4096], p: Position, side: Side) -> Result<KingsWay, Refusal>
    requires { IsBetween t.now × Clean p.pieces p.colors }
    ensures { castling_says result ≡ behind (uncastle_tests (pos_at p) side) (castling_says (Ok (way_before (pos_at p) side))) }
{
    let turn = p.turn;
    let c = geometry::other(turn);
    let r = taken_back(c, side);
    let u = unmake::inner::unmake(t, p, r);
    let possible = u.verdict;
    let v = king_after(possible, p, c, r.source);
    match v {
        Err(w) => Err(w),
        Ok(()) => {
            let e = u.position;
            Ok(kings_way(e, c, side))
        }
    }
}
