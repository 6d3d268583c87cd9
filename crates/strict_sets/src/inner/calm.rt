// The targets from which a man came by a step that no state remembers. `t` is the table of squares between, lent.
ghost use Rattle.std.specs.Prelude.{◌≡◌, true, false, ◌<◌};
ghost use Rattle.squares.specs.Tests.{◌and◌};
ghost use Rattle.squares.specs.Squares.{set_of};
ghost use Rattle.geometry.specs.Colors.{opp};
ghost use Rattle.geometry.specs.Lines.{IsBetween};
ghost use Rattle.laws.specs.declared.Piece.TheVariants.{Pawn};
ghost use Rattle.laws.specs.Men.{man, man_of};
ghost use Rattle.laws.specs.Moves.{mark_ok};
ghost use Rattle.laws.specs.Unmaking.{promoted_to};
ghost use Rattle.laws.specs.Boards.{men_in};
ghost use Rattle.strict_test.specs.inner.Strictly.{Today};
ghost use Rattle.strict_sets.specs.inner.Parts.{stood, calm_at, half_at, raised_at, Comes};

use super::super::Half;
use laws::{Color, Position};

// The number of what stood on the source.
fn stood_there(turn: Color, taking: bool) -> u8
    ensures { (man_of result ≡ stood (opp turn) taking) × (result < 14) }
{
    if taking {
        return position::inner::man_number(turn, 2);
    }
    0
}

// The man numbered x came from these squares, and left the king that waited unattacked.
fn calm(t: &[u64; 4096], p: Position, s: u8, x: u8, taking: bool) -> u64
    requires { IsBetween t.now × Today p × Comes p s x }
    ensures { result ≡ set_of (calm_at (men_in p) (opp p.turn) (man_of x) taking s) }
{
    let from = super::coming::comes_from(p, x, taking, s);
    if from == 0 {
        return 0;
    }
    let pieces = p.pieces;
    let colors = p.colors;
    let turn = p.turn;
    let king = pins::inner::king_square(pieces, colors, turn);
    let left = position::inner::put_man(p, s, stood_there(turn, taking));
    let c = geometry::other(turn);
    from & !exposure::inner::exposed(t, left, c, x, king)
}

// With at most eight souls of the retractor.
pub fn half(t: &[u64; 4096], p: Position, s: u8, x: u8) -> Half
    requires { IsBetween t.now × Today p × Comes p s x }
    ensures { (result.calm ≡ set_of (half_at (men_in p) (opp p.turn) (man_of x) false s)) × (result.taking ≡ set_of (half_at (men_in p) (opp p.turn) (man_of x) true s)) }
{
    let turn = p.turn;
    let c = geometry::other(turn);
    if !returning::inner::few_with(p, c, s, x) {
        return Half { calm: 0, taking: 0 };
    }
    let quiet = calm(t, p, s, x, false);
    let taking = calm(t, p, s, x, true);
    Half {
        calm: quiet,
        taking: taking,
    }
}

// The man numbered y on s may be a promoted pawn.
fn may_rise(c: Color, y: u8, s: u8) -> bool
    requires { (y < 14) × (s < 64) }
    ensures { result ≡ mark_ok (man c Pawn) c s true (promoted_to true (man_of y)) }
{
    let kind = y / 2;
    (geometry::inner::rank_for(c, s) == 7) & (2 <= kind) & (kind <= 5)
}

// The same of the pawn that the man numbered y was.
pub fn raised(t: &[u64; 4096], p: Position, s: u8, y: u8) -> Half
    requires { IsBetween t.now × Today p × Comes p s y }
    ensures { (result.calm ≡ set_of (raised_at (men_in p) (opp p.turn) (man_of y) false s)) × (result.taking ≡ set_of (raised_at (men_in p) (opp p.turn) (man_of y) true s)) }
{
    let turn = p.turn;
    let c = geometry::other(turn);
    if !may_rise(c, y, s) {
        return Half { calm: 0, taking: 0 };
    }
    half(t, p, s, position::inner::man_number(c, 1))
}
