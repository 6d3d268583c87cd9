// The verbs that make a board of a question's fields, and those that ask a text's board by one of its methods.
// `t` is the table of squares between, lent.
ghost use Rattle.geometry.specs.Lines.{IsBetween};
ghost use Rattle.puts.specs.inner.Growing.{Grows};

use board::RetractableBoard;
use laws::{ChessRetraction, Color, EnPassantFlag, Piece};

mod made; // made.rt: raw men, and a move replayed
mod told; // told.rt: what a board's methods tell, put

#[derive(Drop)]
enum Question {
    Uncertain,
    Piece(u8),
    Attacked(u8, Color),
    Passant(EnPassantFlag),
    Unmake(ChessRetraction),
}

// The answer to a line of one of these verbs, 0 bytes to any other.
pub fn answer(line: &[u8], out: &mut [u8; 65536]) -> usize
    ensures { Grows 0 result }
{
    let t = tables::between_table();
    answer_with(&t, line, out)
}

// The same over a lent table.
pub fn answer_with(t: &[u64; 4096], line: &[u8], out: &mut [u8; 65536]) -> usize
    requires { IsBetween t.now }
    ensures { Grows 0 result }
{
    if fields::inner::starts(line, b"raw\t") {
        return made::raw(line, out);
    }
    if fields::inner::starts(line, b"replay\t") {
        return made::replay(line, out);
    }
    let Some(what) = asked(line) else {
        return 0;
    };
    of_text(t, what, line, out)
}

// Behind the text stands a square, a square and a colour, a state, a retraction, or nothing.
fn asked(line: &[u8]) -> Option<Question> {
    let text = fields::inner::after(line, 0, b'\t');
    let at = fields::inner::after(line, text, b'\t');
    if fields::inner::starts(line, b"uncertain\t") {
        return Some(Question::Uncertain);
    }
    if fields::inner::starts(line, b"piece\t") {
        return Some(Question::Piece(fields::inner::decimal(line, at)));
    }
    if fields::inner::starts(line, b"attacked\t") {
        let color = fields::inner::turn(fields::inner::byte(
            line,
            fields::inner::after(line, at, b'\t'),
        ));
        return Some(Question::Attacked(fields::inner::decimal(line, at), color));
    }
    if fields::inner::starts(line, b"setep\t") {
        return Some(Question::Passant(fields::inner::state(line, at)));
    }
    if fields::inner::starts(line, b"unmake\t") {
        return Some(Question::Unmake(fields::inner::retraction(line, at)));
    }
    None
}

fn of_text(t: &[u64; 4096], what: Question, line: &[u8], out: &mut [u8; 65536]) -> usize
    requires { IsBetween t.now }
    ensures { Grows 0 result }
{
    let today = board_field::inner::read_with(t, line, fields::inner::after(line, 0, b'\t'));
    let v = today.verdict;
    match v {
        Err(w) => puts::inner::refused(w, out),
        Ok(()) => {
            let b = today.board;
            of_board(what, b, out)
        }
    }
}

fn of_board(what: Question, b: RetractableBoard, out: &mut [u8; 65536]) -> usize
    ensures { Grows 0 result }
{
    match what {
        Question::Uncertain => board_field::inner::put_boarded(b.set_uncertain_ep(), out),
        Question::Piece(sq) => told::put_piece(b.piece_on(sq), out),
        Question::Attacked(sq, color) => told::put_attacked(b.is_attacked(sq, color), out),
        Question::Passant(state) => board_field::inner::put_boarded(b.set_en_passant(state), out),
        Question::Unmake(r) => told::put_unmade(b.make_retraction_new(r), out),
    }
}
