// The few targets that un-make itself is asked about, with nothing uncaptured. `t` is the table of squares between, lent.
ghost use Rattle.std.specs.Prelude.{◌≡◌, ◌<◌};
ghost use Rattle.squares.specs.Squares.{set_of, united};
ghost use Rattle.geometry.specs.Lines.{IsBetween};
ghost use Rattle.laws.specs.Men.{man_of};
ghost use Rattle.laws.specs.Boards.{pos_at};
ghost use Rattle.strict_test.specs.inner.Strictly.{Today};
ghost use Rattle.strict_sets.specs.inner.Parts.{special, special_pawn, strict_alone};

use laws::{ChessRetraction, Color, Position};

// A pawn's captures en passant were to its sixth rank, and its double step was to its fourth.
fn special_pawn(c: Color, s: u8) -> u64
    requires { s < 64 }
    ensures { result ≡ set_of (special_pawn c s) }
{
    let rank = geometry::inner::rank_for(c, s);
    if rank == 5 {
        return steps::inner::get_pawn_attacks(geometry::other(c), s);
    }
    if rank == 3 {
        let crossed = geometry::inner::behind(c, s);
        return squares::bit(geometry::inner::behind(c, crossed));
    }
    0
}

pub fn special(c: Color, x: u8, s: u8) -> u64
    requires { (x < 14) × (s < 64) }
    ensures { result ≡ set_of (special c (man_of x) s) }
{
    let kind = x / 2;
    if kind == 1 {
        return special_pawn(c, s);
    }
    if kind == 6 {
        return squares::bit(laws::inner::castling::king_home(c));
    }
    0
}

// The target itself, if the retraction to it is strict.
fn alone(t: &[u64; 4096], p: Position, s: u8, q: u8) -> u64
    requires { IsBetween t.now × Today p }
    ensures { result ≡ set_of (strict_alone (pos_at p) s q) }
{
    let r = ChessRetraction {
        source: s,
        target: q,
        uncaptured: 0,
        unpromotion: false,
    };
    squares::choose(strict_test::inner::is_strict(t, p, r), squares::bit(q), 0)
}

// Those of a set that are strict targets.
pub fn tested(t: &[u64; 4096], p: Position, s: u8, set: u64) -> u64
    requires { IsBetween t.now × Today p }
    ensures { result ≡ set_of (united (strict_alone (pos_at p) s) set) }
{
    let mut r: u64 = 0;
    for q in squares::each(set) {
        r |= alone(t, p, s, q);
    }
    r
}
