// The double step that a position names, put back, and the king that waited while it was made.
ghost use Rattle.std.specs.Prelude.{◌≡◌, true, ◌<◌};
ghost use Rattle.geometry.specs.Colors.{rank_for};
ghost use Rattle.laws.specs.declared.EnPassantFlag.TheVariants.{Some};
ghost use Rattle.laws.specs.Acceptance.{kings_ok, state_ok};
ghost use Rattle.laws.specs.Strictness as laws;
ghost use Rattle.laws.specs.Boards.{Clean, men_in};
ghost use Rattle.position.specs.inner.Edits.{with_men};
ghost use Rattle.double_step.specs.inner.Parts.{step_for};

use laws::{Color, EnPassantFlag, Position};

// The position before c's double step to q: its pawn is back on its home square, and gone from q.
fn unstepped(e: Position, c: Color, q: u8) -> Position
    requires { Clean e.pieces e.colors × (q < 64) × (rank_for c q ≡ 3) }
    ensures { result ≡ with_men e (laws.unstepped c q (men_in e)) }
{
    let crossed = geometry::inner::behind(c, q);
    let home = geometry::inner::behind(c, crossed);
    let pawn = position::inner::man_number(c, 1);
    let lifted = position::inner::put_man(e, q, 0);
    position::inner::put_man(lifted, home, pawn)
}

// The king of the side that waited, which is to move now, was unattacked before the step to q.
fn waited_unattacked(e: Position, q: u8) -> bool
    requires { Clean e.pieces e.colors × (kings_ok (men_in e) ≡ true) × (state_ok e.terms.edition (men_in e) e.turn (Some q) ≡ true) }
    ensures { result ≡ step_for (men_in e) e.turn (Some q) }
{
    let turn = e.turn;
    let c = geometry::other(turn);
    let before = unstepped(e, c, q);
    let pieces = before.pieces;
    let colors = before.colors;
    !pins::inner::bad_check(pieces, colors, c)
}

// A position that names no square is asked nothing.
pub fn could_step(e: Position) -> bool
    requires { Clean e.pieces e.colors × (kings_ok (men_in e) ≡ true) × (state_ok e.terms.edition (men_in e) e.turn e.passant ≡ true) }
    ensures { result ≡ step_for (men_in e) e.turn e.passant }
{
    let state = e.passant;
    match state {
        EnPassantFlag::Any => true,
        EnPassantFlag::Some(q) => waited_unattacked(e, q),
        EnPassantFlag::None => true,
    }
}
