// Printing the men into a line, and reading letters into sets.
ghost use Rattle.std.specs.Prelude.{◌≡◌, [], ◌∷◌, ◌+◌, ◌≤◌, ◌<◌, get_or};
ghost use Rattle.squares.specs.Squares.{set_of};
ghost use Rattle.laws.specs.Boards.{men_at, kind_sets, color_sets};
ghost use Rattle.men_field.specs.Placement.{kind_letter, byte_of, flush_of, rank_text, men_text};
ghost use Rattle.men_field.specs.inner.Lines.{Added, Stepped, Holds, kind_shown};
ghost use Rattle.men_field.specs.inner.Letters.{number_by_letter, width_of, place_of, belongs, men_by_numbers};

use super::{Line, Run, Sets};

pub fn push(mut l: Line, b: u8) -> Line
    requires { l.len < 81 }
    ensures { Added l (b ∷ []) result }
{
    l.bytes[l.len] = b;
    l.len += 1;
    l
}

// The digit of a run of empty squares; nothing for no square.
fn flush(l: Line, run: u8) -> Line
    requires { (l.len < 81) × (run < 9) }
    ensures { Added l (flush_of run []) result }
{
    if run == 0 {
        return l;
    }
    push(l, b'0' + run)
}

// One square more: its letter `b`, or 0 for an empty square.
#[tactic(auto, using(crate::proofs::Adding::man_some))]
fn put_man(s: Run, b: u8) -> Run
    requires { (s.line.len + s.run < 80) × (s.run < 9) }
    ensures { Stepped s b result }
{
    if b == 0 {
        return Run {
            line: s.line,
            run: s.run + 1,
        };
    }
    Run {
        line: push(flush(s.line, s.run), b),
        run: 0,
    }
}

// White's letter of the kind on a square that has a man.
fn kind_letter(pieces: [u64; 6], k: u8) -> u8
    ensures { (result ≡ kind_letter (kind_shown pieces k)) × (result ≤ 82) }
{
    if squares::has(pieces[0], k) {
        return b'P';
    }
    if squares::has(pieces[1], k) {
        return b'N';
    }
    if squares::has(pieces[2], k) {
        return b'B';
    }
    if squares::has(pieces[3], k) {
        return b'R';
    }
    if squares::has(pieces[4], k) {
        return b'Q';
    }
    b'K'
}

// The letter of a square, 0 where no man stands.
#[tactic(auto, using(crate::proofs::Shown::white_letter, crate::proofs::Shown::black_letter, crate::proofs::Shown::no_letter))]
pub fn letter_at(pieces: [u64; 6], colors: [u64; 2], k: u8) -> u8
    requires { k < 64 }
    ensures { result ≡ byte_of (men_at pieces colors k) }
{
    if squares::has(colors[0], k) {
        return kind_letter(pieces, k);
    }
    if squares::has(colors[1], k) {
        return 32 + kind_letter(pieces, k);
    }
    0
}

fn put_rank(l: Line, pieces: [u64; 6], colors: [u64; 2], rank: u8) -> Line
    requires { (rank < 8) × (l.len ≤ 72) }
    ensures { Added l (rank_text (men_at pieces colors) rank) result }
{
    let mut s = Run { line: l, run: 0 };
    for k in 8 * rank..8 * rank + 8 {
        s = put_man(s, letter_at(pieces, colors, k));
    }
    flush(s.line, s.run)
}

// The men, from rank 8 down.
pub fn put_men(pieces: [u64; 6], colors: [u64; 2]) -> Line
    ensures { Holds result (men_text (men_at pieces colors)) × (result.len ≤ 71) }
{
    let blank = Line {
        bytes: [0; 81],
        len: 0,
    };
    let mut line = put_rank(blank, pieces, colors, 7);
    for rank in (0..7).rev() {
        line = put_rank(push(line, b'/'), pieces, colors, rank);
    }
    line
}

// The number of a letter's man, 0 for a byte that is none.
#[tactic(auto, unfolding(crate::specs::inner::Letters::number_by_letter))]
pub fn number_of(b: u8) -> u8
    ensures { result ≡ number_by_letter b }
{
    match b {
        b'P' => 2,
        b'p' => 3,
        b'N' => 4,
        b'n' => 5,
        b'B' => 6,
        b'b' => 7,
        b'R' => 8,
        b'r' => 9,
        b'Q' => 10,
        b'q' => 11,
        b'K' => 12,
        b'k' => 13,
        _ => 0,
    }
}

// How many squares a byte stands for: a digit its number, a slash none, a letter one.
#[tactic(auto, unfolding(crate::specs::inner::Letters::width_of))]
pub fn width_of(b: u8) -> usize
    ensures { (result ≡ width_of b) × (result ≤ 8) }
{
    if b < b'1' {
        return 0;
    }
    if b <= b'8' {
        return (b - b'0') as usize;
    }
    1
}

// The place of a square in the text's order, from a8.
#[tactic(auto, unfolding(crate::specs::inner::Letters::place_of))]
fn place_of(k: u8) -> usize
    requires { k < 64 }
    ensures { (result ≡ place_of k) × (result < 64) }
{
    (8 * (7 - k / 8) + k % 8) as usize
}

// Whether a man, by its number, belongs to a set: 0 to 5 the kinds, 6 and 7 the colours. Most squares hold none.
#[tactic(auto, using(crate::proofs::Belonging::nobody), unfolding(crate::specs::inner::Letters::belongs))]
fn is_in(w: u8, n: u8) -> bool
    ensures { result ≡ belongs w n }
{
    if n < 2 {
        return false;
    }
    let m = n % 14;
    if w < 6 {
        return m / 2 == w + 1;
    }
    (2 <= m) & (m % 2 + 6 == w)
}

fn set_of(men: [u8; 64], w: u8) -> u64
    ensures { result ≡ set_of (λ k. belongs w (get_or men (place_of k) 0)) }
{
    let mut r = 0;
    for k in 0..64 {
        if is_in(w, men[place_of(k)]) {
            r |= squares::bit(k);
        }
    }
    r
}

// The sets of 64 numbers of men in the text's order.
pub fn sets_of(men: [u8; 64]) -> Sets
    ensures { (result.pieces ≡ kind_sets (men_by_numbers men)) × (result.colors ≡ color_sets (men_by_numbers men)) }
{
    Sets {
        pieces: [
            set_of(men, 0),
            set_of(men, 1),
            set_of(men, 2),
            set_of(men, 3),
            set_of(men, 4),
            set_of(men, 5),
        ],
        colors: [set_of(men, 6), set_of(men, 7)],
    }
}
