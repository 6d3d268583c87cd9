// Steps of knights, kings and pawns by masks and shifts.
ghost use Rattle.std.specs.Prelude.{◌≡◌, ◌<◌};
ghost use Rattle.squares.specs.Squares.{set_of};
ghost use Rattle.geometry.specs.Colors.{ahead_of_one};
ghost use Rattle.geometry.specs.Steps.{knight_step, king_step, pawn_step, pawn_double, pawn_takes};

use geometry::Color;

pub fn get_knight_moves(sq: u8) -> u64
    requires { sq < 64 }
    ensures { result ≡ set_of (knight_step sq) }
{
    let left = squares::left(squares::bit(sq));
    let right = squares::right(squares::bit(sq));
    let beside = left | right;
    let beyond = squares::left(left) | squares::right(right);
    squares::up(squares::up(beside) | beyond) | squares::down(squares::down(beside) | beyond)
}

pub fn get_king_moves(sq: u8) -> u64
    requires { sq < 64 }
    ensures { result ≡ set_of (king_step sq) }
{
    let king = squares::bit(sq);
    let beside = squares::left(king) | squares::right(king);
    let three = beside | king;
    beside | squares::up(three) | squares::down(three)
}

// Every member one rank on, as the colour moves.
pub fn forward(color: Color, s: u64) -> u64
    ensures { result ≡ set_of (ahead_of_one color s) }
{
    match color {
        Color::White => squares::up(s),
        Color::Black => squares::down(s),
    }
}

// The square ahead of a pawn.
pub fn pawn_step(color: Color, sq: u8) -> u64
    requires { sq < 64 }
    ensures { result ≡ set_of (pawn_step color sq) }
{
    forward(color, squares::bit(sq))
}

// The square two ahead of a pawn on its second rank.
pub fn pawn_double(color: Color, sq: u8) -> u64
    requires { sq < 64 }
    ensures { result ≡ set_of (pawn_double color sq) }
{
    let start = squares::bit(sq) & squares::get_rank(geometry::inner::own_rank(color, 1));
    forward(color, forward(color, start))
}

pub fn get_pawn_attacks(color: Color, sq: u8) -> u64
    requires { sq < 64 }
    ensures { result ≡ set_of (pawn_takes color sq) }
{
    let ahead = forward(color, squares::bit(sq));
    squares::left(ahead) | squares::right(ahead)
}
