// A board as a field of a question or of an answer: by its text, or by the raw fields of any board. `t` is the table of squares between, lent.
ghost use Rattle.geometry.specs.Lines.{IsBetween};
ghost use Rattle.puts.specs.inner.Growing.{Grows};

use board::{Boarded, RetractableBoard};
use laws::Edition;

// The board of the text at a place. A verb that names no edition reads in A.
pub fn read(line: &[u8], at: usize) -> Boarded {
    read_in(line, at, Edition::A)
}

pub fn read_in(line: &[u8], at: usize, edition: Edition) -> Boarded {
    let t = tables::between_table();
    read_in_with(&t, line, at, edition)
}

pub fn read_with(t: &[u64; 4096], line: &[u8], at: usize) -> Boarded
    requires { IsBetween t.now }
{
    read_in_with(t, line, at, Edition::A)
}

pub fn read_in_with(t: &[u64; 4096], line: &[u8], at: usize, edition: Edition) -> Boarded
    requires { IsBetween t.now }
{
    text::inner::read(t, fields::inner::text(line, at), edition)
}

// The text of a board, which may fail 6.
pub fn put_text(b: RetractableBoard, out: &mut [u8; 65536], len: usize) -> usize
    ensures { Grows len result }
{
    let l = position_text::inner::line_of(board::inner::position_of(b));
    let bytes = l.bytes;
    puts::inner::front(out, len, &bytes, l.len)
}

pub fn put_boarded(b: Boarded, out: &mut [u8; 65536]) -> usize
    ensures { Grows 0 result }
{
    let v = b.verdict;
    match v {
        Err(r) => puts::inner::refused(r, out),
        Ok(()) => {
            let board = b.board;
            put_text(board, out, 0)
        }
    }
}

// The board of the raw fields at a place, with union, checkers and pins behind them, as they stand there.
pub fn untested(line: &[u8], pieces: usize) -> RetractableBoard {
    let colors = fields::inner::past(line, pieces, b' ', 6);
    let turn = fields::inner::past(line, colors, b' ', 2);
    let rights = fields::inner::after(line, turn, b' ');
    let state = fields::inner::after(line, rights, b' ');
    let combined = fields::inner::after(line, state, b' ');
    let checkers = fields::inner::after(line, combined, b' ');
    let pinned = fields::inner::after(line, checkers, b' ');
    let terms = laws::terms_of(Edition::A);
    RetractableBoard {
        pieces: fields::inner::sets(line, pieces),
        colors: fields::inner::colors(line, colors),
        combined: fields::inner::hex(line, combined),
        turn: fields::inner::turn(fields::inner::byte(line, turn)),
        white: fields::inner::rights(line, rights, b'K', b'Q'),
        black: fields::inner::rights(line, rights, b'k', b'q'),
        pinned: fields::inner::hex(line, pinned),
        checkers: fields::inner::hex(line, checkers),
        passant: fields::inner::state(line, state),
        terms,
    }
}
