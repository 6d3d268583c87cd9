// The printer, the copy into a lent slice, and the reader.
ghost use Rattle.std.specs.Prelude.{◌≡◌, cond, [], ◌++◌, ◌≤◌, ltb, length, take, drop};
ghost use Rattle.refusal.specs.Said.{Writes};
ghost use Rattle.men_field.specs.inner.Lines.{text_of, Added, Holds};
ghost use Rattle.position_text.specs.Form.{turn_byte, side_text, rights_text, state_text, tail_text, printed, Answers};
ghost use Rattle.position_text.specs.inner.Copies.{copied_says, SameAs};
ghost use Rattle.position_text.specs.inner.Reading.{right_of, square_of, step_men, step_tail, step_of, start_of, run_of, turn_of, side_of, flag_of, raw_of, no_raw};

use super::{Form, Line, Raw, Scan};
use geometry::Color;
use laws::{CastleRights, Edition, EnPassantFlag, Position};
use men_field::inner::push;

fn turn_byte(c: Color) -> u8
    ensures { result ≡ turn_byte c }
{
    match c {
        Color::White => b'w',
        Color::Black => b'b',
    }
}

// One colour's rights; `k` and `q` are its letters.
fn put_side(l: Line, k: u8, q: u8, side: CastleRights) -> Line
    requires { l.len ≤ 79 }
    ensures { Added l (side_text k q side) result }
{
    match side {
        CastleRights::NoRights => l,
        CastleRights::KingSide => push(l, k),
        CastleRights::QueenSide => push(l, q),
        CastleRights::Both => {
            let one = push(l, k);
            push(one, q)
        }
    }
}

fn put_rights(l: Line, w: CastleRights, b: CastleRights) -> Line
    requires { l.len ≤ 77 }
    ensures { Added l (rights_text w b) result }
{
    let white = put_side(l, b'K', b'Q', w);
    let both = put_side(white, b'k', b'q', b);
    if both.len == l.len {
        return push(both, b'-');
    }
    both
}

fn put_state(l: Line, e: EnPassantFlag) -> Line
    requires { l.len ≤ 79 }
    ensures { Added l (state_text e) result }
{
    match e {
        EnPassantFlag::Any => push(l, b'?'),
        EnPassantFlag::None => push(l, b'-'),
        EnPassantFlag::Some(s) => {
            let file = push(l, b'a' + s % 8);
            push(file, b'1' + s / 8)
        }
    }
}

// The three fields after the men, each after a space.
fn put_tail(l: Line, p: Position) -> Line
    requires { l.len ≤ 71 }
    ensures { Added l (tail_text p.turn p.white p.black p.passant) result }
{
    let turn = p.turn;
    let white = p.white;
    let black = p.black;
    let state = p.passant;
    let l1 = push(l, b' ');
    let l2 = push(l1, turn_byte(turn));
    let l3 = push(l2, b' ');
    let l4 = put_rights(l3, white, black);
    let l5 = push(l4, b' ');
    put_state(l5, state)
}

// The text of a position's fields (the Rust's Display).
pub fn line_of(p: Position) -> Line
    ensures { Holds result (printed p) × (result.len ≤ 81) }
{
    let pieces = p.pieces;
    let colors = p.colors;
    let men = men_field::inner::put_men(pieces, colors);
    put_tail(men, p)
}

// The first `n` bytes go to the front of `out`.
fn fill(bytes: [u8; 81], n: usize, out: &mut [u8])
    requires { (n ≤ 81) × (n ≤ length out.old) }
    ensures { out.new ≡ take n bytes ++ drop n out.old }
{
    out[..n].copy_from_slice(&bytes[..n]);
}

// How many of `n` bytes are written where there is room for `have`: all or none.
fn written(have: usize, n: usize) -> usize
    ensures { result ≡ cond (ltb have n) 0 n }
{
    if have < n { 0 } else { n }
}

// A line into a lent slice, whole or not at all.
pub fn copy(line: Line, out: &mut [u8]) -> Result<usize, usize>
    requires { line.len ≤ 81 }
    ensures { Writes [] (text_of line) out.old (copied_says result) out.new }
{
    let n = line.len;
    let bytes = line.bytes;
    let have = out.len();
    let w = written(have, n);
    fill(bytes, w, out);
    if have < n {
        return Err(n);
    }
    Ok(n)
}

pub fn same(l: Line, t: &[u8]) -> bool
    requires { l.len ≤ 81 }
    ensures { SameAs (text_of l) t.now result }
{
    &l.bytes[..l.len] == t
}

#[tactic(auto, unfolding(crate::specs::inner::Reading::right_of))]
fn right_of(b: u8) -> u8
    ensures { (result ≡ right_of b) × (result ≤ 8) }
{
    match b {
        b'K' => 1,
        b'Q' => 2,
        b'k' => 4,
        b'q' => 8,
        _ => 0,
    }
}

// The state after one more byte of its field: 64 stands for none, 65 for unknown.
#[tactic(auto, unfolding(crate::specs::inner::Reading::square_of))]
fn square_of(s: u8, b: u8) -> u8
    ensures { result ≡ square_of s b }
{
    if b == b'-' {
        return 64;
    }
    if b == b'?' {
        return 65;
    }
    if b < b'a' {
        return s % 8 + 8 * ((b + 7) % 8);
    }
    (b - b'a') % 8
}

#[tactic(auto, unfolding(crate::specs::inner::Reading::step_men))]
fn step_men(s: Scan, b: u8) -> Scan
    ensures { result ≡ step_men s b }
{
    let at = s.at;
    if 64 <= at {
        return s;
    }
    let mut out = s;
    out.men[at] = men_field::inner::number_of(b);
    out.at = at + men_field::inner::width_of(b);
    out
}

#[tactic(auto, unfolding(crate::specs::inner::Reading::step_tail))]
fn step_tail(s: Scan, b: u8) -> Scan
    ensures { result ≡ step_tail s b }
{
    let field = s.field;
    let mut out = s;
    if field == 1 {
        out.turn = b;
        return out;
    }
    if field == 2 {
        out.rights = (s.rights % 16 + right_of(b)) % 16;
        return out;
    }
    out.square = square_of(s.square, b);
    out
}

#[tactic(auto, unfolding(crate::specs::inner::Reading::step_of))]
fn step(s: Scan, b: u8) -> Scan
    ensures { result ≡ step_of s b }
{
    let field = s.field;
    if b == b' ' {
        let mut out = s;
        out.field = field % 4 + 1;
        return out;
    }
    if field == 0 {
        return step_men(s, b);
    }
    step_tail(s, b)
}

#[tactic(auto, using(crate::proofs::Walks::run_step, crate::proofs::Walks::run_done))]
fn walk(t: &[u8]) -> Scan
    ensures { result ≡ run_of start_of t.now }
{
    let mut s = Scan {
        men: [0; 64],
        at: 0,
        field: 0,
        turn: 0,
        rights: 0,
        square: 0,
    };
    for b in t {
        s = step(s, *b);
    }
    s
}

fn turn_of(b: u8) -> Color
    ensures { result ≡ turn_of b }
{
    if b == b'b' {
        return Color::Black;
    }
    Color::White
}

pub fn side_of(n: u8) -> CastleRights
    ensures { result ≡ side_of n }
{
    match n {
        0 => CastleRights::NoRights,
        1 => CastleRights::KingSide,
        2 => CastleRights::QueenSide,
        _ => CastleRights::Both,
    }
}

pub fn flag_of(n: u8) -> EnPassantFlag
    ensures { result ≡ flag_of n }
{
    if n == 64 {
        return EnPassantFlag::None;
    }
    if n == 65 {
        return EnPassantFlag::Any;
    }
    EnPassantFlag::Some(n % 64)
}

fn raw_of(s: Scan, edition: Edition) -> Raw
    ensures { result ≡ raw_of edition s }
{
    let men = s.men;
    let sets = men_field::inner::sets_of(men);
    let pieces = sets.pieces;
    let colors = sets.colors;
    let turn = turn_of(s.turn);
    let white = side_of(s.rights % 4);
    let black = side_of(s.rights / 4);
    let passant = flag_of(s.square);
    let terms = laws::terms_of(edition);
    let position = Position {
        pieces: pieces,
        colors: colors,
        turn: turn,
        white: white,
        black: black,
        passant: passant,
        terms: terms,
    };
    Raw {
        form: Form::InForm,
        position: position,
    }
}

pub fn no_raw() -> Raw
    ensures { result ≡ no_raw }
{
    let position = position::inner::nothing();
    Raw {
        form: Form::OutOfForm,
        position: position,
    }
}

// What the text would say, if the printer writes just this text of it.
pub fn read_raw(text: &[u8], edition: Edition) -> Raw
    ensures { Answers edition text.now result }
{
    let raw = raw_of(walk(text), edition);
    let p = raw.position;
    let line = line_of(p);
    if same(line, text) {
        return raw;
    }
    no_raw()
}
