// Boards made of a question's fields: of raw men, and by a move replayed on an earlier board.
ghost use Rattle.puts.specs.inner.Growing.{Grows};

use board::{Boarded, RetractableBoard};
use laws::Edition;
use position_text::{Form, Raw};
use refusal::Refusal;

// `raw TAB p n b r q k white black turn rights state`: the sets in hexadecimal, a square as its number
pub(super) fn raw(line: &[u8], out: &mut [u8; 65536]) -> usize
    ensures { Grows 0 result }
{
    let b = board_field::inner::untested(line, fields::inner::after(line, 0, b'\t'));
    let pieces = b.pieces;
    let colors = b.colors;
    let turn = b.turn;
    let white = b.white;
    let black = b.black;
    let passant = b.passant;
    board_field::inner::put_boarded(
        RetractableBoard::new(pieces, colors, turn, white, black, passant, Edition::A),
        out,
    )
}

// The earlier board may fail 6.
pub(super) fn replay(line: &[u8], out: &mut [u8; 65536]) -> usize
    ensures { Grows 0 result }
{
    let at = fields::inner::after(line, 0, b'\t');
    let move_at = fields::inner::after(line, at, b'\t');
    let r = fields::inner::retraction(line, move_at);
    let kind = fields::inner::decimal(line, fields::inner::after(line, move_at, b'\t'));
    let before = earlier(position_text::inner::read_raw(fields::inner::text(line, at), Edition::A));
    let v = before.verdict;
    match v {
        Err(w) => puts::inner::refused(w, out),
        Ok(()) => {
            let b = before.board;
            board_field::inner::put_boarded(b.replay(r, kind), out)
        }
    }
}

// The board of a text by refusals 14 and 1 to 5 alone.
fn earlier(raw: Raw) -> Boarded {
    let form = raw.form;
    match form {
        Form::OutOfForm => board::inner::board_by(Err(Refusal::Text), board::no_board()),
        Form::InForm => {
            let p = raw.position;
            let t = tables::between_table();
            board::inner::earlier_from(&t, p)
        }
    }
}
