// Where a man can have come from by its step on today's men: a quick test before the strict one. `t` is the table of squares between, lent.
ghost use Rattle.std.specs.Prelude.{◌≡◌, ◌<◌};
ghost use Rattle.geometry.specs.Lines.{IsBetween};
ghost use Rattle.laws.specs.Men.{man_of};
ghost use Rattle.laws.specs.Boards.{Clean, men_in, pos_at};
ghost use Rattle.strict_test.specs.inner.Coming.{steps_for, comes_for};

use laws::{ChessRetraction, Position};

// The step of the man numbered x, with a capture or without.
fn steps(t: &[u64; 4096], p: Position, x: u8, from: u8, to: u8) -> bool
    requires { (IsBetween t.now × Clean p.pieces p.colors) × ((from < 64) × (to < 64) × (x < 14)) }
    ensures { result ≡ steps_for (men_in p) (man_of x) from to }
{
    let quietly = moves::inner::man_moves(t, p, x, from, to, 0);
    let taking = moves::inner::man_moves(t, p, x, from, to, 1);
    quietly | taking
}

// The man on the source, or the pawn that it was, steps there from the target, or the target is its king's home.
pub fn can_come(t: &[u64; 4096], p: Position, r: ChessRetraction) -> bool
    requires { (IsBetween t.now × Clean p.pieces p.colors) × ((r.source < 64) × (r.target < 64)) }
    ensures { result ≡ comes_for (pos_at p) r }
{
    let turn = p.turn;
    let c = geometry::other(turn);
    let x = position::inner::man_at(p, r.source);
    let pawn = position::inner::man_number(c, 1);
    let same = steps(t, p, x, r.target, r.source);
    let promoted = steps(t, p, pawn, r.target, r.source);
    let castled = r.target == laws::inner::castling::king_home(c);
    same | promoted | castled
}
