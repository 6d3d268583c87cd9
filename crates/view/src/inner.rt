// Looking at a position.
ghost use Rattle.std.specs.Prelude.{◌≡◌, ◌<◌};
ghost use Rattle.squares.specs.Members.{first_of};
ghost use Rattle.laws.specs.Boards.{color_set};
ghost use Rattle.geometry.specs.Chess.{adjacent_files};
ghost use Rattle.view.specs.Views.{castling_rooks, within, view_of};

use super::{Color, Position, View};
use laws::Side;

// The lowest member; a1 of the empty set, as in the Rust.
pub fn to_square(s: u64) -> u8
    ensures { (result ≡ first_of s) × (result < 64) }
{
    squares::lowest(s) % 64
}

// `get_adjacent_files(sq.get_file())`
pub fn adjacent_files(sq: u8) -> u64
    requires { sq < 64 }
    ensures { result ≡ adjacent_files sq }
{
    let f = squares::get_file(sq % 8);
    squares::left(f) | squares::right(f)
}

// `board.color_combined(color)`
pub fn color_set(colors: [u64; 2], color: Color) -> u64
    ensures { result ≡ color_set colors color }
{
    match color {
        Color::White => colors[0],
        Color::Black => colors[1],
    }
}

fn castling_rooks(color: Color, short: bool, long: bool) -> u64
    ensures { result ≡ castling_rooks color short long }
{
    let h = squares::bit(laws::inner::castling::rook_home(color, Side::Short));
    let a = squares::bit(laws::inner::castling::rook_home(color, Side::Long));
    squares::choose(short, h, 0) ^ squares::choose(long, a, 0)
}

// Each kind's men among those of a set.
pub fn among(pieces: [u64; 6], set: u64) -> [u64; 6]
    ensures { result ≡ within pieces set }
{
    [
        pieces[0] & set,
        pieces[1] & set,
        pieces[2] & set,
        pieces[3] & set,
        pieces[4] & set,
        pieces[5] & set,
    ]
}

// Nothing is asked of the position, nor of the sets beside it.
pub fn look(p: Position, combined: u64, pinned: u64, checkers: u64) -> View
    ensures { result ≡ view_of p combined pinned checkers }
{
    let pieces = p.pieces;
    let colors = p.colors;
    let turn = p.turn;
    let passant = p.passant;
    let terms = p.terms;
    let edition = terms.edition;
    let color = geometry::other(turn);
    let short = laws::inner::castling::has_right(p, color, Side::Short);
    let long = laws::inner::castling::has_right(p, color, Side::Long);
    let own = color_set(colors, color);
    let other = color_set(colors, turn);
    let men = among(pieces, own);
    let foes = among(pieces, other);
    View {
        color: color,
        held: short | long,
        corners: castling_rooks(color, short, long),
        combined: combined,
        own: own,
        men: men,
        foes: foes,
        rivals: pieces[0] & !own,
        mask: !other,
        king: to_square(men[5]),
        oppking: to_square(foes[5]),
        pinned: pinned,
        checkers: checkers,
        pieces: pieces,
        colors: colors,
        passant: passant,
        edition: edition,
    }
}
