// Refusals 2 to 5 of clean men, one by one; 1 is in men, 6 in pins.
ghost use Rattle.std.specs.Prelude.{◌≡◌, not, ◌<◌};
ghost use Rattle.laws.specs.declared.EnPassantFlag.TheVariants.{Some};
ghost use Rattle.laws.specs.Acceptance.{kings_ok, pawns_ok, right_ok, rights_ok, state_ok};
ghost use Rattle.laws.specs.Boards.{men_in, pos_at, Clean};
ghost use Rattle.accept.specs.inner.Parts.{stepped_twice};

use laws::inner::castling;
use laws::{Color, EnPassantFlag, Piece, Position, Side};

// 2 KINGS
pub fn bad_kings(p: Position) -> bool
    requires { Clean p.pieces p.colors }
    ensures { result ≡ not (kings_ok (men_in p)) }
{
    let pieces = p.pieces;
    let colors = p.colors;
    let w = men::inner::number(pieces, colors, Piece::King, Color::White);
    let b = men::inner::number(pieces, colors, Piece::King, Color::Black);
    (w != 1) | (b != 1)
}

// 3 PAWN
pub fn bad_pawns(p: Position) -> bool
    requires { Clean p.pieces p.colors }
    ensures { result ≡ not (pawns_ok (men_in p)) }
{
    p.pieces[0] & 0xff00_0000_0000_00ff != 0
}

// The right of a side, held without king and rook at home.
fn bad_right(p: Position, c: Color, d: Side) -> bool
    requires { Clean p.pieces p.colors }
    ensures { result ≡ not (right_ok (men_in p) (pos_at p).rights c d) }
{
    let pieces = p.pieces;
    let colors = p.colors;
    let held = castling::has_right(p, c, d);
    let king = men::inner::stands(pieces, colors, Piece::King, c, castling::king_home(c));
    let rook = men::inner::stands(pieces, colors, Piece::Rook, c, castling::rook_home(c, d));
    !(!held | (king & rook))
}

// 4 RIGHTS
pub fn bad_rights(p: Position) -> bool
    requires { Clean p.pieces p.colors }
    ensures { result ≡ not (rights_ok (men_in p) (pos_at p).rights) }
{
    let a = bad_right(p, Color::White, Side::Short);
    let b = bad_right(p, Color::White, Side::Long);
    let c = bad_right(p, Color::Black, Side::Short);
    let d = bad_right(p, Color::Black, Side::Long);
    a | b | c | d
}

// A pawn of the colour stands where a double step ends, and both squares behind it are empty.
fn stepped_twice(p: Position, color: Color, sq: u8) -> bool
    requires { Clean p.pieces p.colors × (sq < 64) }
    ensures { result ≡ stepped_twice (men_in p) color sq }
{
    if geometry::inner::rank_for(color, sq) != 3 {
        return false;
    }
    let pieces = p.pieces;
    let colors = p.colors;
    let one = geometry::inner::behind(color, sq);
    let two = geometry::inner::behind(color, one);
    let pawn = men::inner::stands(pieces, colors, Piece::Pawn, color, sq);
    let near = men::inner::is_empty(pieces, colors, one);
    let far = men::inner::is_empty(pieces, colors, two);
    pawn & near & far
}

// A named square is refused.
fn bad_square(p: Position, sq: u8) -> bool
    requires { Clean p.pieces p.colors }
    ensures { result ≡ not (state_ok p.terms.edition (men_in p) p.turn (Some sq)) }
{
    if sq > 63 {
        return true;
    }
    let turn = p.turn;
    let stepped = stepped_twice(p, geometry::other(turn), sq);
    let noted = men::inner::is_noted(p, turn, sq);
    !(stepped & noted)
}

// 5 PASSANT
pub fn bad_passant(p: Position) -> bool
    requires { Clean p.pieces p.colors }
    ensures { result ≡ not (state_ok p.terms.edition (men_in p) p.turn p.passant) }
{
    let state = p.passant;
    match state {
        EnPassantFlag::Any => false,
        EnPassantFlag::Some(s) => bad_square(p, s),
        EnPassantFlag::None => false,
    }
}
