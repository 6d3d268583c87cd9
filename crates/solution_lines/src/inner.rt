// The retraction that a line says. It is read leniently, printed again and compared, so that only the printer is believed.
ghost use Rattle.std.specs.Prelude.{◌≡◌, ◌↔◌, true, ◌≤◌, ◌<◌, get_or};
ghost use Rattle.laws.specs.Retractions.{InRange};
ghost use Rattle.solution_lines.specs.Lines.{Says};
ghost use Rattle.solution_lines.specs.inner.Reading.{square_from, letter_number, leniently};

use laws::ChessRetraction;

fn square_from(f: u8, r: u8) -> u8
    ensures { (result ≡ square_from f r) × (result < 64) }
{
    (f % 8 + 7) % 8 + 8 * ((r % 8 + 7) % 8)
}

fn letter_number(b: u8) -> u8
    ensures { (result ≡ letter_number b) × (result ≤ 5) }
{
    match b {
        b'P' => 1,
        b'N' => 2,
        b'B' => 3,
        b'R' => 4,
        b'Q' => 5,
        _ => 0,
    }
}

// A byte of a line, 0 past its end.
fn byte_at(l: &[u8], i: usize) -> u8
    ensures { result ≡ get_or l.now i 0 }
{
    l.get(i).copied().unwrap_or(0)
}

// The retraction that a line in form says; of any other line some retraction.
pub fn read_line(l: &[u8]) -> ChessRetraction
    ensures { (result ≡ leniently l.now) × InRange result }
{
    let source = square_from(byte_at(l, 0), byte_at(l, 1));
    let target = square_from(byte_at(l, 2), byte_at(l, 3));
    let uncaptured = letter_number(byte_at(l, 5));
    let mark = byte_at(l, 7);
    ChessRetraction {
        source,
        target,
        uncaptured,
        unpromotion: mark == b'=',
    }
}

// Whether a line is what is printed of the retraction that it would say.
pub fn is_formed(l: &[u8]) -> bool
    ensures { (result ≡ true) ↔ Says (leniently l.now) l.now }
{
    let Ok(line) = <[u8; 8]>::try_from(l) else {
        return false;
    };
    line == rows::inner::fields_of(read_line(l))
}
