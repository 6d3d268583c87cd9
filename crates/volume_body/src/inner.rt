// Bodies, written and read.
ghost use Rattle.std.specs.Prelude.{◌≡◌, ◌≤◌, ◌<◌, length};
ghost use Rattle.laws.specs.Boards.{men_in};
ghost use Rattle.men_field.specs.inner.Lines.{Holds};
ghost use Rattle.volume_body.specs.Layout.{square_at, pair_at, men_bytes, side_number, head_byte, state_byte, bodied, Answers};
ghost use Rattle.volume_body.specs.inner.Reading.{half_of, NumbersOf, read_of};

use laws::{CastleRights, Color, Edition, EnPassantFlag, Position};
use men_field::Line;
use men_field::inner::push;
use position_text::{Form, Raw};

// The square of a place in the order of a text, from a8.
fn square_at(p: u8) -> u8
    requires { p < 64 }
    ensures { result ≡ square_at p }
{
    8 * (7 - p / 8) + p % 8
}

// Two squares in a byte, the earlier one in the high half.
fn pair(p: Position, j: u8) -> u8
    requires { j < 32 }
    ensures { result ≡ pair_at (men_in p) j }
{
    let a = position::inner::man_at(p, square_at(2 * j));
    let b = position::inner::man_at(p, square_at(2 * j + 1));
    16 * a + b
}

fn put_pairs(p: Position) -> Line
    ensures { Holds result (men_bytes (men_in p) 32) }
{
    let mut line = Line {
        bytes: [0; 81],
        len: 0,
    };
    for j in 0..32 {
        line = push(line, pair(p, j));
    }
    line
}

fn side_number(s: CastleRights) -> u8
    ensures { (result ≡ side_number s) × (result ≤ 3) }
{
    match s {
        CastleRights::NoRights => 0,
        CastleRights::KingSide => 1,
        CastleRights::QueenSide => 2,
        CastleRights::Both => 3,
    }
}

fn head_byte(turn: Color, white: CastleRights, black: CastleRights) -> u8
    ensures { result ≡ head_byte turn white black }
{
    let t = men::inner::color_place(turn) as u8;
    let w = side_number(white);
    let b = side_number(black);
    t + 2 * w + 8 * b
}

fn state_byte(e: EnPassantFlag) -> u8
    ensures { result ≡ state_byte e }
{
    match e {
        EnPassantFlag::Any => 65,
        EnPassantFlag::None => 64,
        EnPassantFlag::Some(s) => s,
    }
}

// The body of a position, which does not name its edition.
pub fn body_of(p: Position) -> Line
    ensures { Holds result (bodied p) × (result.len ≡ 34) }
{
    let turn = p.turn;
    let white = p.white;
    let black = p.black;
    let state = p.passant;
    let men = put_pairs(p);
    let head = push(men, head_byte(turn, white, black));
    push(head, state_byte(state))
}

// The half of a byte that a place has: the high one for an even place.
fn half(b: u8, p: usize) -> u8
    ensures { result ≡ half_of b p }
{
    if p % 2 == 0 {
        return b / 16;
    }
    b % 16
}

// The 64 numbers of men, in the order of a text.
fn numbers(t: &[u8]) -> [u8; 64]
    requires { 32 ≤ length t.now }
    ensures { NumbersOf t.now result }
{
    let mut men = [0u8; 64];
    for (p, man) in men.iter_mut().enumerate() {
        *man = half(t[p / 2], p);
    }
    men
}

// What 34 bytes would say, read leniently; an even number is White's, of a turn as of a man.
fn raw_of(t: &[u8], edition: Edition) -> Raw
    requires { length t.now ≡ 34 }
    ensures { result ≡ read_of edition t.now }
{
    let sets = men_field::inner::sets_of(numbers(t));
    let pieces = sets.pieces;
    let colors = sets.colors;
    let h = t[32];
    let turn = position::inner::color_of(h);
    let white = position_text::inner::side_of(h / 2 % 4);
    let black = position_text::inner::side_of(h / 8 % 4);
    let passant = position_text::inner::flag_of(t[33]);
    let terms = laws::terms_of(edition);
    let position = Position {
        pieces: pieces,
        colors: colors,
        turn: turn,
        white: white,
        black: black,
        passant: passant,
        terms: terms,
    };
    Raw {
        form: Form::InForm,
        position: position,
    }
}

// What a body says, if the writer writes just these bytes of it.
pub fn read_body(t: &[u8], edition: Edition) -> Raw
    ensures { Answers edition t.now result }
{
    if t.len() != 34 {
        return position_text::inner::no_raw();
    }
    let raw = raw_of(t, edition);
    let p = raw.position;
    let line = body_of(p);
    if position_text::inner::same(line, t) {
        return raw;
    }
    position_text::inner::no_raw()
}
