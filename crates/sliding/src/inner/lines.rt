// The lines of the board, by masks. A number above 63 is no square, but has a file, a rank and diagonals that go on past the edge.
ghost use Rattle.std.specs.Prelude.{◌≡◌, ◌<◌};
ghost use Rattle.squares.specs.Squares.{set_of};
ghost use Rattle.geometry.specs.Lines.{line};
ghost use Rattle.geometry.specs.Steps.{slide_line};
ghost use Rattle.sliding.specs.inner.Diagonals.{rising, falling, ranked};

// Two squares stand on a diagonal that rises to the right.
fn rises(a: u8, b: u8) -> bool
    ensures { result ≡ rising a b }
{
    a % 8 + b / 8 == b % 8 + a / 8
}

// Two squares stand on a diagonal that falls to the right.
fn falls(a: u8, b: u8) -> bool
    ensures { result ≡ falling a b }
{
    a % 8 + a / 8 == b % 8 + b / 8
}

// A set moved up by some ranks and down by others; what leaves the board is lost.
fn ranked(s: u64, up: u8, down: u8) -> u64
    requires { down < 8 }
    ensures { result ≡ ranked s up down }
{
    if up < down {
        return s >> ((down - up) * 8);
    }
    if up - down < 8 {
        s << ((up - down) * 8)
    } else {
        0
    }
}

// The whole diagonal of a square that rises to the right.
pub(super) fn rising(sq: u8) -> u64
    ensures { result ≡ set_of (rising sq) }
{
    ranked(0x8040_2010_0804_0201, sq / 8, sq % 8)
}

// The one that falls.
pub(super) fn falling(sq: u8) -> u64
    ensures { result ≡ set_of (falling sq) }
{
    ranked(0x0102_0408_1020_4080, sq / 8 + sq % 8, 7)
}

// The whole line of two squares, edge to edge.
pub fn line(a: u8, b: u8) -> u64
    ensures { result ≡ set_of (line a b) }
{
    if a == b {
        return 0;
    }
    let straight = squares::choose(a / 8 == b / 8, squares::get_rank(a / 8), 0)
        | squares::choose(a % 8 == b % 8, squares::get_file(a % 8), 0);
    let diagonal = squares::choose(rises(a, b), rising(a), 0)
        | squares::choose(falls(a, b), falling(a), 0);
    straight | diagonal
}

// Two squares on a line of a slider that moves as a rook, as a bishop, or as both.
pub fn on_line(rook: bool, bishop: bool, a: u8, b: u8) -> bool
    ensures { result ≡ slide_line rook bishop a b }
{
    let up = rises(a, b);
    let down = falls(a, b);
    (rook & ((a != b) & ((a / 8 == b / 8) | (a % 8 == b % 8))))
        | (bishop & ((a != b) & (up | down)))
}
