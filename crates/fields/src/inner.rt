// The fields of a question: numbers, sets, rights, states and retractions read from a line. Whatever stands there, something is read.
ghost use Rattle.std.specs.Prelude.{◌≤◌};
ghost use Rattle.fields.specs.inner.Places.{Onward};

use laws::{CastleRights, ChessRetraction, Color, EnPassantFlag};

// The byte at a place, or a newline, which no line has.
pub fn byte(line: &[u8], at: usize) -> u8 {
    if at < line.len() { line[at] } else { b'\n' }
}

// The line begins with a word. Behind its end it has newlines.
pub fn starts(line: &[u8], word: &[u8]) -> bool {
    word.iter().enumerate().all(|(i, b)| byte(line, i) == *b)
}

// The place of the next `sep`, or the line's end; a place past that stays.
pub fn stop(line: &[u8], at: usize, sep: u8) -> usize
    ensures { Onward line.now at result }
{
    for i in at..line.len() {
        if line[i] == sep {
            return i;
        }
    }
    at.max(line.len())
}

// The place behind the next `sep`, or the line's end.
pub fn after(line: &[u8], at: usize, sep: u8) -> usize
    ensures { Onward line.now at result }
{
    let i = stop(line, at, sep);
    if i < line.len() { i + 1 } else { i }
}

// The place behind the next n `sep`s, or the line's end.
pub fn past(line: &[u8], at: usize, sep: u8, n: usize) -> usize
    ensures { Onward line.now at result }
{
    let mut to = at;
    for _ in 0..n {
        to = after(line, to, sep);
    }
    to
}

// The field at a place, up to the next tab or the line's end; empty past that.
pub fn text(line: &[u8], at: usize) -> &[u8] {
    line.get(at..stop(line, at, b'\t')).unwrap_or(&[])
}

// A number of digits below `base`, up to the first byte that is none.
fn number_in(base: u64, line: &[u8], at: usize) -> u64 {
    let mut x = 0u64;
    for i in at..line.len() {
        let d = digits::hex_digit(line[i]);
        if d >= base {
            break;
        }
        x = with_digit(base, x, d);
    }
    x
}

// A number with one more digit: the last sixteen hexadecimal ones, and in decimal the largest number where it grows above it.
fn with_digit(base: u64, x: u64, d: u64) -> u64 {
    if base == 16 {
        return (x << 4) | d;
    }
    if x > 1844674407370955160 || d > 9 {
        return u64::MAX;
    }
    x * 10 + d
}

// A hexadecimal number.
pub fn hex(line: &[u8], at: usize) -> u64 {
    number_in(16, line, at)
}

// A decimal number, the largest one for all above it.
pub fn number(line: &[u8], at: usize) -> u64 {
    number_in(10, line, at)
}

// Two sets and six, single spaces between.
pub fn colors(line: &[u8], at: usize) -> [u64; 2] {
    [hex(line, at), hex(line, past(line, at, b' ', 1))]
}

pub fn sets(line: &[u8], at: usize) -> [u64; 6] {
    [
        hex(line, at),
        hex(line, past(line, at, b' ', 1)),
        hex(line, past(line, at, b' ', 2)),
        hex(line, past(line, at, b' ', 3)),
        hex(line, past(line, at, b' ', 4)),
        hex(line, past(line, at, b' ', 5)),
    ]
}

// A decimal number, 255 for all above it.
pub fn decimal(line: &[u8], at: usize) -> u8 {
    number(line, at).min(255) as u8
}

// A decimal number, 65,535 for all above it.
pub fn counter(line: &[u8], at: usize) -> u16 {
    number(line, at).min(65535) as u16
}

// The size of a slice, at most 8,192.
pub fn size(line: &[u8], at: usize) -> usize
    ensures { result ≤ 8192 }
{
    number(line, at).min(8192) as usize
}

// `w` or `b`.
pub fn turn(b: u8) -> Color {
    if b == b'w' {
        Color::White
    } else {
        Color::Black
    }
}

// Whether a letter stands in the field at a place.
fn marked(line: &[u8], at: usize, letter: u8) -> bool {
    stop(line, at, letter) < stop(line, at, b' ')
}

// The rights of a colour, by its letters.
pub fn rights(line: &[u8], at: usize, short: u8, long: u8) -> CastleRights {
    laws::inner::castling::rights_for(marked(line, at, short), marked(line, at, long))
}

// `-`, `?` or the number of a square.
pub fn state(line: &[u8], at: usize) -> EnPassantFlag {
    match byte(line, at) {
        b'-' => EnPassantFlag::None,
        b'?' => EnPassantFlag::Any,
        _ => EnPassantFlag::Some(decimal(line, at)),
    }
}

// `source,target,uncaptured,mark` in numbers.
pub fn retraction(line: &[u8], at: usize) -> ChessRetraction {
    let to = after(line, at, b',');
    let taken = after(line, to, b',');
    let mark = after(line, taken, b',');
    ChessRetraction {
        source: decimal(line, at),
        target: decimal(line, to),
        uncaptured: decimal(line, taken),
        unpromotion: decimal(line, mark) != 0,
    }
}
