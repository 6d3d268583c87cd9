// The squares on which a man leaves a king attacked. `t` is the table of squares between, lent.
ghost use Rattle.std.specs.Prelude.{◌≡◌, not, ◌<◌};
ghost use Rattle.squares.specs.Squares.{set_of, united};
ghost use Rattle.geometry.specs.Lines.{IsBetween, between};
ghost use Rattle.laws.specs.Men.{man_of};
ghost use Rattle.laws.specs.Attacks.{attacks};
ghost use Rattle.laws.specs.Boards.{Clean, men_in};
ghost use Rattle.exposure.specs.inner.Exposing.{exposed_at};

use laws::{Color, Position};

// The squares from which the man numbered x attacks k, past the men of n.
pub fn seen_from(n: Position, x: u8, k: u8) -> u64
    requires { Clean n.pieces n.colors × (x < 14) × (k < 64) }
    ensures { result ≡ set_of (λ q. attacks (men_in n) (man_of x) q k) }
{
    let kind = x / 2;
    if kind == 1 {
        let c = position::inner::color_of(x);
        return steps::inner::get_pawn_attacks(geometry::other(c), k);
    }
    if kind == 2 {
        return steps::inner::get_knight_moves(k);
    }
    if kind == 6 {
        return steps::inner::get_king_moves(k);
    }
    let pieces = n.pieces;
    let colors = n.colors;
    let occ = men::inner::occupied(pieces, colors);
    if kind == 3 {
        return sliding::inner::get_bishop_moves(k, occ);
    }
    if kind == 4 {
        return sliding::inner::get_rook_moves(k, occ);
    }
    if kind == 5 {
        return sliding::inner::get_queen_moves(k, occ);
    }
    0
}

// The squares that do not stand between k and some member of the set.
fn leaving_open(t: &[u64; 4096], from: u64, k: u8) -> u64
    requires { IsBetween t.now × (k < 64) }
    ensures { result ≡ set_of (united (λ a j. not (between a k j)) from) }
{
    let mut r: u64 = 0;
    for a in squares::each(from) {
        r |= !tables::inner::between(t, a, k);
    }
    r
}

// The squares on which the man numbered x would leave the king on k attacked by c's men: it would attack the king itself from there, or
// would not stand between the king and an attacker.
pub fn exposed(t: &[u64; 4096], n: Position, c: Color, x: u8, k: u8) -> u64
    requires { IsBetween t.now × Clean n.pieces n.colors × (x < 14) × (k < 64) }
    ensures { result ≡ set_of (exposed_at (men_in n) c (man_of x) k) }
{
    let seen = seen_from(n, x, k);
    let pieces = n.pieces;
    let colors = n.colors;
    let from = attacks::inner::attackers(pieces, colors, k, c);
    seen | leaving_open(t, from, k)
}
