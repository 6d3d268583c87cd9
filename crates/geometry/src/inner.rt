// Ranks and squares as a colour counts them.
ghost use Rattle.std.specs.Prelude.{◌≡◌, ◌<◌, ◌+◌};
ghost use Rattle.geometry.specs.Colors.{own_rank, rank_for, home_square, back_of};
ghost use Rattle.geometry.specs.Colors as colors;

use super::Color;

// A rank as the colour counts it from 0: `to_my_backrank` is 0, `to_their_backrank` 7.
pub fn own_rank(color: Color, n: u8) -> u8
    requires { n < 8 }
    ensures { result ≡ own_rank color n }
{
    match color {
        Color::White => n,
        Color::Black => 7 - n,
    }
}

// The rank of a square as the colour counts it.
pub fn rank_for(color: Color, sq: u8) -> u8
    requires { sq < 64 }
    ensures { result ≡ rank_for color sq }
{
    match color {
        Color::White => sq / 8,
        Color::Black => 7 - sq / 8,
    }
}

// The square of a colour's home rank on a file.
pub fn home_square(color: Color, file: u8) -> u8
    requires { file < 8 }
    ensures { (result ≡ home_square color file) × (result < 64) }
{
    match color {
        Color::White => file,
        Color::Black => 56 + file,
    }
}

// The square one rank nearer to the colour's home.
pub fn behind(color: Color, sq: u8) -> u8
    requires { (sq < 64) × (0 < rank_for color sq) }
    ensures { (result ≡ colors.behind color sq) × (result < 64) × (rank_for color result + 1 ≡ rank_for color sq) }
{
    match color {
        Color::White => sq - 8,
        Color::Black => sq + 8,
    }
}

// The same round the edge, as the Rust's `ubackward` goes.
pub fn ubackward(color: Color, sq: u8) -> u8
    requires { sq < 64 }
    ensures { (result ≡ back_of color sq) × (result < 64) }
{
    match color {
        Color::White => (sq + 56) % 64,
        Color::Black => (sq + 8) % 64,
    }
}
