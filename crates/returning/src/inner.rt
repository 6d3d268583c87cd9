// The souls of an earlier position, parted: the uncaptured man on the source is the side to move's, the man that moved the retractor's.
ghost use Rattle.std.specs.Prelude.{◌≡◌, false, ◌<◌, leb};
ghost use Rattle.squares.specs.Squares.{set_of};
ghost use Rattle.laws.specs.Men.{man_of, is_of, put};
ghost use Rattle.laws.specs.Souls as laws;
ghost use Rattle.laws.specs.Boards.{Clean, men_in};
ghost use Rattle.returning.specs.inner.Back.{comes_back, like_shade, bishops_like};

use laws::{Color, Piece, Position};

// The squares of the shade of s.
fn shade(s: u8) -> u64
    requires { s < 64 }
    ensures { result ≡ set_of (like_shade s) }
{
    let light = souls::inner::light_squares();
    let dark = souls::inner::dark_squares();
    squares::choose(squares::has(dark, s), dark, light)
}

// How many bishops of the side to move stand on that shade.
fn bishops_like(p: Position, s: u8) -> u32
    requires { Clean p.pieces p.colors × (s < 64) }
    ensures { result ≡ bishops_like (men_in p) p.turn s }
{
    let pieces = p.pieces;
    let colors = p.colors;
    let d = p.turn;
    let bishops = men::inner::men_of(pieces, colors, Piece::Bishop, d);
    squares::count(bishops & shade(s))
}

// With eight souls already no pawn may come back, and another man only where the first of its kind are not all there: two knights, a bishop
// of each shade, two rooks, a queen.
fn at_eight(p: Position, s: u8) -> u64
    requires { Clean p.pieces p.colors × (s < 64) × (is_of p.turn (men_in p s) ≡ false) × (laws.souls (men_in p) p.turn ≡ 8) }
    ensures { result ≡ set_of (comes_back (men_in p) p.turn s) }
{
    let pieces = p.pieces;
    let colors = p.colors;
    let d = p.turn;
    let knights = men::inner::number(pieces, colors, Piece::Knight, d);
    let bishops = bishops_like(p, s);
    let rooks = men::inner::number(pieces, colors, Piece::Rook, d);
    let queens = men::inner::number(pieces, colors, Piece::Queen, d);
    let knight = squares::choose(knights >= 2, 0, 4);
    let bishop = squares::choose(bishops >= 1, 0, 8);
    let rook = squares::choose(rooks >= 2, 0, 16);
    let queen = squares::choose(queens >= 1, 0, 32);
    knight | bishop | rook | queen
}

// The numbers from 1 to 5 of the men that may be uncaptured on s: with such a man there the side to move has at most eight souls, and a
// pawn never stands on rank 1 or 8. A man more is at most one soul more, and never one fewer.
pub fn men_back(p: Position, s: u8) -> u64
    requires { Clean p.pieces p.colors × (s < 64) × (is_of p.turn (men_in p s) ≡ false) }
    ensures { result ≡ set_of (comes_back (men_in p) p.turn s) }
{
    let pieces = p.pieces;
    let colors = p.colors;
    let d = p.turn;
    let n = souls::inner::souls(pieces, colors, d);
    if n <= 7 {
        return squares::choose(s / 8 % 7 == 0, 60, 62);
    }
    if n > 8 {
        return 0;
    }
    at_eight(p, s)
}

// With the man numbered x on s, whatever stands there, c has at most eight souls.
pub fn few_with(p: Position, c: Color, s: u8, x: u8) -> bool
    requires { Clean p.pieces p.colors × (s < 64) × (x < 14) }
    ensures { result ≡ leb (laws.souls (put s (man_of x) (men_in p)) c) 8 }
{
    let e = position::inner::put_man(p, s, x);
    let pieces = e.pieces;
    let colors = e.colors;
    souls::inner::souls(pieces, colors, c) <= 8
}
