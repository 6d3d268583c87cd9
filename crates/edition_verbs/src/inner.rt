// The verbs whose fields begin with an edition, `A` or `B` alone; a line that names another has none of these verbs.
// `t` is the table of squares between, lent.
ghost use Rattle.geometry.specs.Lines.{IsBetween};
ghost use Rattle.puts.specs.inner.Growing.{Grows};

use board::RetractableBoard;
use laws::{Color, Edition, Side};

mod attacked; // attacked.rt: who attacks a square, checks, or forbids a castling
mod histories; // histories.rt: the plies of a history
mod lists; // lists.rt: the ported list and the strict one, put whole
mod written; // written.rt: records read and written

#[derive(Drop)]
enum Question {
    List,
    StrictList,
    Turn,
    Read,
    Write(u16, u16),
    Attackers(u8, Color),
    Checkers,
    Castling(Side),
    History(u8),
}

// The answer to a line of one of these verbs, 0 bytes to any other.
pub fn answer(line: &[u8], out: &mut [u8; 65536]) -> usize
    ensures { Grows 0 result }
{
    let t = tables::between_table();
    answer_with(&t, line, out)
}

// The same over a lent table.
pub fn answer_with(t: &[u64; 4096], line: &[u8], out: &mut [u8; 65536]) -> usize
    requires { IsBetween t.now }
    ensures { Grows 0 result }
{
    let at = fields::inner::after(line, 0, b'\t');
    let Some(edition) = edition_at(line, at) else {
        return 0;
    };
    in_edition(t, line, fields::inner::after(line, at, b'\t'), edition, out)
}

fn edition_at(line: &[u8], at: usize) -> Option<Edition> {
    if fields::inner::stop(line, at, b'\t') - at != 1 {
        return None;
    }
    let letter = fields::inner::byte(line, at);
    match letter {
        b'A' => Some(Edition::A),
        b'B' => Some(Edition::B),
        _ => None,
    }
}

// `at` is the place of the text or the record.
fn in_edition(
    t: &[u64; 4096],
    line: &[u8],
    at: usize,
    edition: Edition,
    out: &mut [u8; 65536],
) -> usize
    requires { IsBetween t.now }
    ensures { Grows 0 result }
{
    let Some(what) = asked(line, at) else {
        return 0;
    };
    match what {
        Question::Read => written::put_read(
            records::read(fields::inner::text(line, at), edition),
            out,
        ),
        known => of_text(t, known, line, at, edition, out),
    }
}

// Behind the text stand two counters, a square and a colour, a side, a depth, or nothing.
fn asked(line: &[u8], at: usize) -> Option<Question> {
    if fields::inner::starts(line, b"list\t") {
        return Some(Question::List);
    }
    if fields::inner::starts(line, b"strictlist\t") {
        return Some(Question::StrictList);
    }
    if fields::inner::starts(line, b"turn\t") {
        return Some(Question::Turn);
    }
    if fields::inner::starts(line, b"pgnread\t") {
        return Some(Question::Read);
    }
    if fields::inner::starts(line, b"pgnwrite\t") {
        let half = fields::inner::after(line, at, b'\t');
        let full = fields::inner::after(line, half, b'\t');
        return Some(Question::Write(
            fields::inner::counter(line, half),
            fields::inner::counter(line, full),
        ));
    }
    if fields::inner::starts(line, b"history\t") {
        return Some(Question::History(fields::inner::decimal(
            line,
            fields::inner::after(line, at, b'\t'),
        )));
    }
    attacked::asked(line, at)
}

fn of_text(
    t: &[u64; 4096],
    what: Question,
    line: &[u8],
    at: usize,
    edition: Edition,
    out: &mut [u8; 65536],
) -> usize
    requires { IsBetween t.now }
    ensures { Grows 0 result }
{
    let today = board_field::inner::read_in_with(t, line, at, edition);
    let v = today.verdict;
    match v {
        Err(w) => puts::inner::refused(w, out),
        Ok(()) => {
            let b = today.board;
            of_board(t, what, b, out)
        }
    }
}

fn of_board(t: &[u64; 4096], what: Question, b: RetractableBoard, out: &mut [u8; 65536]) -> usize
    requires { IsBetween t.now }
    ensures { Grows 0 result }
{
    match what {
        Question::List => lists::put_ported(t, b, out),
        Question::StrictList => lists::put_strict(t, b, out),
        Question::Turn => board_field::inner::put_boarded(turning::turn(b), out),
        Question::Write(half, full) => written::put_record(b, half, full, out),
        Question::Attackers(sq, color) => attacked::put_attackers(b.attackers(sq, color), out),
        Question::Checkers => attacked::put_squares(out, 0, b.checkers),
        Question::Castling(side) => attacked::put_castling(castling::attackers(b, side), out),
        Question::History(depth) => histories::put(
            history::inner::history_of(t, b, depth),
            depth,
            out,
        ),
        Question::Read => 0,
    }
}
