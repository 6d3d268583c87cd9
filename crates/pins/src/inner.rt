// Checkers and pins of the side to move, and refusal 6. `t` is the table of squares between, lent.
ghost use Rattle.std.specs.Prelude.{◌≡◌, true, not, ◌<◌};
ghost use Rattle.squares.specs.Squares.{set_of, united};
ghost use Rattle.geometry.specs.Lines.{IsBetween};
ghost use Rattle.laws.specs.Attacks.{checkers_of, alone, pins_of};
ghost use Rattle.laws.specs.Acceptance.{kings_ok, quiet};
ghost use Rattle.laws.specs.Boards.{men_at, Clean};
ghost use Rattle.pins.specs.inner.Kings.{TheKing, snipers_of};

use laws::{Color, Piece};

pub fn king_square(pieces: [u64; 6], colors: [u64; 2], color: Color) -> u8
    requires { Clean pieces colors × (kings_ok (men_at pieces colors) ≡ true) }
    ensures { TheKing (men_at pieces colors) color result }
{
    squares::lowest(men::inner::men_of(pieces, colors, Piece::King, color))
}

// The colour is to move. A king never checks, so it is left out.
pub fn checkers(pieces: [u64; 6], colors: [u64; 2], color: Color) -> u64
    requires { Clean pieces colors × (kings_ok (men_at pieces colors) ≡ true) }
    ensures { result ≡ checkers_of (men_at pieces colors) color }
{
    let q = king_square(pieces, colors, color);
    let d = geometry::other(color);
    attacks::inner::attackers(pieces, colors, q, d) & !pieces[5]
}

// The bishops, rooks and queens of the colour on a line with q that they move along.
fn snipers(pieces: [u64; 6], colors: [u64; 2], color: Color, q: u8) -> u64
    requires { Clean pieces colors × (q < 64) }
    ensures { result ≡ snipers_of (men_at pieces colors) color q }
{
    let c = men::inner::color_place(color);
    let diagonal = sliding::inner::get_bishop_moves(q, 0);
    let straight = sliding::inner::get_rook_moves(q, 0);
    attacks::inner::met(pieces, colors[c], 0, 0, diagonal, straight, 0)
}

// The man that stands alone between a and q, if one does.
fn lone(t: &[u64; 4096], pieces: [u64; 6], colors: [u64; 2], a: u8, q: u8) -> u64
    requires { IsBetween t.now × Clean pieces colors × (a < 64) × (q < 64) }
    ensures { result ≡ set_of (alone (men_at pieces colors) a q) }
{
    let s = tables::inner::between(t, a, q) & men::inner::occupied(pieces, colors);
    let n = squares::count(s);
    if n == 1 { s } else { 0 }
}

// The men that stand alone between q and a member of the set.
fn shields(t: &[u64; 4096], pieces: [u64; 6], colors: [u64; 2], from: u64, q: u8) -> u64
    requires { IsBetween t.now × Clean pieces colors × (q < 64) }
    ensures { result ≡ set_of (united (λ a. alone (men_at pieces colors) a q) from) }
{
    let mut r: u64 = 0;
    for a in squares::each(from) {
        r |= lone(t, pieces, colors, a, q);
    }
    r
}

// The colour is to move.
pub fn pins(t: &[u64; 4096], pieces: [u64; 6], colors: [u64; 2], color: Color) -> u64
    requires { IsBetween t.now × Clean pieces colors × (kings_ok (men_at pieces colors) ≡ true) }
    ensures { result ≡ pins_of (men_at pieces colors) color }
{
    let q = king_square(pieces, colors, color);
    let d = geometry::other(color);
    let from = snipers(pieces, colors, d, q);
    shields(t, pieces, colors, from, q)
}

// 6 CHECK, the colour being to move
pub fn bad_check(pieces: [u64; 6], colors: [u64; 2], color: Color) -> bool
    requires { Clean pieces colors × (kings_ok (men_at pieces colors) ≡ true) }
    ensures { result ≡ not (quiet (men_at pieces colors) color) }
{
    let q = king_square(pieces, colors, geometry::other(color));
    attacks::inner::is_attacked(pieces, colors, q, color)
}
