// The colours: the two directions of the board. What lines, squares between and steps mean stands in specs/.
#![tactic(auto)]

ghost use Rattle.std.specs.Prelude.{◌≡◌};
ghost use Rattle.geometry.specs.Colors.{opp, is_white};

pub mod inner; // inner.rt: ranks and squares as a colour counts them

#[derive(Clone, Copy)]
pub enum Color {
    White,
    Black,
}

// The other colour (the Rust's `!color`).
pub fn other(c: Color) -> Color
    ensures { result ≡ opp c }
{
    match c {
        Color::White => Color::Black,
        Color::Black => Color::White,
    }
}

pub fn is_white(c: Color) -> bool
    ensures { result ≡ is_white c }
{
    match c {
        Color::White => true,
        Color::Black => false,
    }
}
