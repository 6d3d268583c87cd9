// Who stands where. `pieces` has a set for each kind, pawns first and kings last; `colors` has White's men and Black's.
ghost use Rattle.std.specs.Prelude.{◌≡◌, not, cond, ◌<◌, ◌+◌, ◌*◌};
ghost use Rattle.squares.specs.Squares.{set_of};
ghost use Rattle.laws.specs.Men.{man, color_place, kind_number, kind_place, man_number, same_man, is_empty};
ghost use Rattle.laws.specs.Attacks.{union_of};
ghost use Rattle.laws.specs.Souls as laws;
ghost use Rattle.laws.specs.Boards.{kind_by, men_at, men_in, men_ok, Clean};
ghost use Rattle.men.specs.inner.Standing.{strange, men_of, next_to, beside_of, noted_of};

use laws::{Color, Edition, Piece, Position};

// The place of a colour in an array of two.
pub fn color_place(c: Color) -> usize
    ensures { (result ≡ color_place c) × (result < 2) }
{
    match c {
        Color::White => 0,
        Color::Black => 1,
    }
}

// The place of a kind in an array of six.
pub fn piece_place(k: Piece) -> usize
    ensures { (result ≡ kind_place k) × (result < 6) }
{
    match k {
        Piece::Pawn => 0,
        Piece::Knight => 1,
        Piece::Bishop => 2,
        Piece::Rook => 3,
        Piece::Queen => 4,
        Piece::King => 5,
    }
}

// The squares on which the sets contradict each other: two kinds, two colours, or a kind and no colour.
fn unclear(pieces: [u64; 6], colors: [u64; 2]) -> u64
    ensures { result ≡ set_of (strange pieces colors) }
{
    let two = pieces[0] | pieces[1];
    let three = two | pieces[2];
    let four = three | pieces[3];
    let five = four | pieces[4];
    let twice = pieces[0] & pieces[1]
        | two & pieces[2]
        | three & pieces[3]
        | four & pieces[4]
        | five & pieces[5];
    twice | colors[0] & colors[1] | ((five | pieces[5]) ^ (colors[0] | colors[1]))
}

// 1 MEN
pub fn bad_men(pieces: [u64; 6], colors: [u64; 2]) -> bool
    ensures { result ≡ not (men_ok pieces colors) }
{
    unclear(pieces, colors) != 0
}

// The men of a colour and kind.
pub fn men_of(pieces: [u64; 6], colors: [u64; 2], kind: Piece, color: Color) -> u64
    requires { Clean pieces colors }
    ensures { result ≡ men_of (men_at pieces colors) color kind }
{
    let k = piece_place(kind);
    let c = color_place(color);
    pieces[k] & colors[c]
}

// How many they are.
pub fn number(pieces: [u64; 6], colors: [u64; 2], kind: Piece, color: Color) -> u32
    requires { Clean pieces colors }
    ensures { result ≡ laws.number (men_at pieces colors) color kind }
{
    squares::count(men_of(pieces, colors, kind, color))
}

// Whether one stands on a square.
pub fn stands(pieces: [u64; 6], colors: [u64; 2], kind: Piece, color: Color, sq: u8) -> bool
    requires { Clean pieces colors }
    ensures { result ≡ same_man (men_at pieces colors sq) (man color kind) }
{
    squares::has(men_of(pieces, colors, kind, color), sq)
}

// The squares of all men.
pub fn occupied(pieces: [u64; 6], colors: [u64; 2]) -> u64
    requires { Clean pieces colors }
    ensures { result ≡ union_of (men_at pieces colors) }
{
    colors[0] | colors[1]
}

// Whether a square is empty.
pub fn is_empty(pieces: [u64; 6], colors: [u64; 2], sq: u8) -> bool
    requires { Clean pieces colors }
    ensures { result ≡ is_empty (men_at pieces colors sq) }
{
    !squares::has(occupied(pieces, colors), sq)
}

// The number of a kind, and of a man, by the sets that a square is in.
fn kind_by(pawn: bool, knight: bool, bishop: bool, rook: bool, queen: bool) -> u8
    ensures { (result ≡ kind_number (kind_by pawn knight bishop rook queen)) × (result < 7) }
{
    if pawn {
        return 1;
    }
    if knight {
        return 2;
    }
    if bishop {
        return 3;
    }
    if rook {
        return 4;
    }
    if queen {
        return 5;
    }
    6
}

fn man_by(white: bool, black: bool, kind: u8) -> u8
    requires { kind < 7 }
    ensures { (result ≡ cond white (kind * 2) (cond black (kind * 2 + 1) 0)) × (result < 14) }
{
    if white {
        return kind * 2;
    }
    if black {
        return kind * 2 + 1;
    }
    0
}

// The number of the man on a square, 0 where none stands or the square is above 63.
pub fn man_at(pieces: [u64; 6], colors: [u64; 2], sq: u8) -> u8
    ensures { (result ≡ man_number (men_at pieces colors sq)) × (result < 14) }
{
    let kind = kind_by(
        squares::has(pieces[0], sq),
        squares::has(pieces[1], sq),
        squares::has(pieces[2], sq),
        squares::has(pieces[3], sq),
        squares::has(pieces[4], sq),
    );
    man_by(
        squares::has(colors[0], sq),
        squares::has(colors[1], sq),
        kind,
    )
}

// The squares beside a square, on its rank.
pub fn next_to(sq: u8) -> u64
    requires { sq < 64 }
    ensures { result ≡ set_of (next_to sq) }
{
    let b = squares::bit(sq);
    squares::left(b) | squares::right(b)
}

// A pawn of the colour stands beside a square.
pub fn pawn_beside(pieces: [u64; 6], colors: [u64; 2], color: Color, sq: u8) -> bool
    requires { Clean pieces colors × (sq < 64) }
    ensures { result ≡ beside_of (men_at pieces colors) color sq }
{
    let near = next_to(sq);
    men_of(pieces, colors, Piece::Pawn, color) & near != 0
}

// What the position's edition asks of a double step to a square, the colour being to move then.
pub fn is_noted(p: Position, color: Color, sq: u8) -> bool
    requires { Clean p.pieces p.colors × (sq < 64) }
    ensures { result ≡ noted_of p.terms.edition (men_in p) color sq }
{
    let terms = p.terms;
    let edition = terms.edition;
    match edition {
        Edition::A => {
            let pieces = p.pieces;
            let colors = p.colors;
            pawn_beside(pieces, colors, color, sq)
        }
        Edition::B => true,
    }
}
