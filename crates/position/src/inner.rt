// Men by their numbers (the Laws' `man_number`, 0 for nothing), the one edit of a position, a man put on a square, and a refusal's answer.
ghost use Rattle.std.specs.Prelude.{◌≡◌, ◌<◌};
ghost use Rattle.laws.specs.Men.{man_number, man_of, is_of, is_pawn, put};
ghost use Rattle.laws.specs.Boards.{Clean, men_in};
ghost use Rattle.position.specs.Answers.{no_position, refused};
ghost use Rattle.position.specs.inner.Edits.{with_men, edit, man_with, color_by};

use super::Positioned;
use laws::{CastleRights, Color, Edition, EnPassantFlag, Position};
use refusal::Refusal;

// The set with the square in or out.
fn edited(set: u64, s: u8, on: bool) -> u64
    ensures { result ≡ edit set s on }
{
    if on {
        return set | squares::bit(s);
    }
    squares::without(set, s)
}

// The man numbered x on a square, whatever stood there: no case on what is lifted, so edits compose.
pub fn put_man(p: Position, s: u8, x: u8) -> Position
    requires { Clean p.pieces p.colors × (x < 14) }
    ensures { result ≡ with_men p (put s (man_of x) (men_in p)) }
{
    let k = x / 2;
    let c = x % 2;
    let mut out = p;
    out.pieces[0] = edited(p.pieces[0], s, k == 1);
    out.pieces[1] = edited(p.pieces[1], s, k == 2);
    out.pieces[2] = edited(p.pieces[2], s, k == 3);
    out.pieces[3] = edited(p.pieces[3], s, k == 4);
    out.pieces[4] = edited(p.pieces[4], s, k == 5);
    out.pieces[5] = edited(p.pieces[5], s, k == 6);
    out.colors[0] = edited(p.colors[0], s, (1 < x) & (c == 0));
    out.colors[1] = edited(p.colors[1], s, (1 < x) & (c == 1));
    out
}

// The number of the man on a square, 0 where none stands or the square is above 63.
pub fn man_at(p: Position, s: u8) -> u8
    ensures { (result ≡ man_number (men_in p s)) × (result < 14) }
{
    let pieces = p.pieces;
    let colors = p.colors;
    men::inner::man_at(pieces, colors, s)
}

// The number of a man by its colour and its kind's number.
pub fn man_number(c: Color, k: u8) -> u8
    requires { k < 7 }
    ensures { (result ≡ man_number (man_with c k)) × (result < 14) }
{
    if k == 0 {
        return 0;
    }
    match c {
        Color::White => 2 * k,
        Color::Black => 2 * k + 1,
    }
}

// The colour of the man numbered x.
pub fn color_of(x: u8) -> Color
    ensures { result ≡ color_by x }
{
    if x % 2 == 0 {
        return Color::White;
    }
    Color::Black
}

pub fn is_of(c: Color, x: u8) -> bool
    requires { x < 14 }
    ensures { result ≡ is_of c (man_of x) }
{
    (1 < x) & ((x % 2) as usize == men::inner::color_place(c))
}

pub fn is_pawn(x: u8) -> bool
    requires { x < 14 }
    ensures { result ≡ is_pawn (man_of x) }
{
    x / 2 == 1
}

// The empty position.
pub fn nothing() -> Position
    ensures { result ≡ no_position }
{
    let terms = laws::terms_of(Edition::A);
    Position {
        pieces: [0; 6],
        colors: [0; 2],
        turn: Color::White,
        white: CastleRights::NoRights,
        black: CastleRights::NoRights,
        passant: EnPassantFlag::Any,
        terms,
    }
}

// A refusal returns no men: its position is the empty one.
pub fn refuse(why: Refusal) -> Positioned
    ensures { result ≡ refused why }
{
    let position = nothing();
    Positioned {
        verdict: Err(why),
        position: position,
    }
}
