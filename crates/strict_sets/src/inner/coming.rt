// Where a man can have come from by its step on today's men.
ghost use Rattle.std.specs.Prelude.{◌≡◌, ◌<◌};
ghost use Rattle.squares.specs.Squares.{set_of};
ghost use Rattle.laws.specs.Men.{man_of};
ghost use Rattle.laws.specs.Boards.{Clean, men_in};
ghost use Rattle.strict_sets.specs.inner.Parts.{pawn_at, steps_at, comes_at};

use laws::{Color, Position};

// A pawn of the colour steps, or takes, from these squares to s; none of them is on rank 1 or 8.
fn pawn_from(c: Color, taking: bool, s: u8) -> u64
    requires { s < 64 }
    ensures { result ≡ set_of (pawn_at c taking s) }
{
    let d = geometry::other(c);
    let beside = steps::inner::get_pawn_attacks(d, s);
    let behind = steps::inner::pawn_step(d, s);
    squares::choose(taking, beside, behind) & 0x00ff_ffff_ffff_ff00
}

// The man numbered x steps from these squares to s, past today's men.
fn steps_from(p: Position, x: u8, taking: bool, s: u8) -> u64
    requires { Clean p.pieces p.colors × (x < 14) × (s < 64) }
    ensures { result ≡ set_of (steps_at (men_in p) (man_of x) taking s) }
{
    if position::inner::is_pawn(x) {
        let c = position::inner::color_of(x);
        return pawn_from(c, taking, s);
    }
    exposure::inner::seen_from(p, x, s)
}

// The empty ones of them.
pub fn comes_from(p: Position, x: u8, taking: bool, s: u8) -> u64
    requires { Clean p.pieces p.colors × (x < 14) × (s < 64) }
    ensures { result ≡ set_of (comes_at (men_in p) (man_of x) taking s) }
{
    let pieces = p.pieces;
    let colors = p.colors;
    let occ = men::inner::occupied(pieces, colors);
    steps_from(p, x, taking, s) & !occ
}
