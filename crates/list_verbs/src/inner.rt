// The verbs that ask for the lists of a text's board: how long they are, whether they have a member, and the lists themselves into a slice.
// `t` is the table of squares between, lent.
ghost use Rattle.geometry.specs.Lines.{IsBetween};
ghost use Rattle.puts.specs.inner.Growing.{Grows};

use board::RetractableBoard;

mod counts; // counts.rt: what is told of the lists in one word, put
mod slices; // slices.rt: the text and the lists into a slice of any size

#[derive(Drop)]
enum Question {
    Limited,
    Count,
    Strict,
    LastMove,
}

// The answer to a line of one of these verbs, 0 bytes to any other.
pub fn answer(line: &[u8], out: &mut [u8; 65536]) -> usize
    ensures { Grows 0 result }
{
    let t = tables::between_table();
    answer_with(&t, line, out)
}

// The same over a lent table.
pub fn answer_with(t: &[u64; 4096], line: &[u8], out: &mut [u8; 65536]) -> usize
    requires { IsBetween t.now }
    ensures { Grows 0 result }
{
    if fields::inner::starts(line, b"print\t") {
        return slices::print(t, line, out);
    }
    if fields::inner::starts(line, b"listinto\t") {
        return slices::list(t, false, line, out);
    }
    if fields::inner::starts(line, b"strictinto\t") {
        return slices::list(t, true, line, out);
    }
    let Some(what) = asked(line) else {
        return 0;
    };
    of_text(t, what, line, out)
}

fn asked(line: &[u8]) -> Option<Question> {
    if fields::inner::starts(line, b"limited\t") {
        return Some(Question::Limited);
    }
    if fields::inner::starts(line, b"count\t") {
        return Some(Question::Count);
    }
    if fields::inner::starts(line, b"strict\t") {
        return Some(Question::Strict);
    }
    if fields::inner::starts(line, b"lastmove\t") {
        return Some(Question::LastMove);
    }
    None
}

fn of_text(t: &[u64; 4096], what: Question, line: &[u8], out: &mut [u8; 65536]) -> usize
    requires { IsBetween t.now }
    ensures { Grows 0 result }
{
    let today = board_field::inner::read_with(t, line, fields::inner::after(line, 0, b'\t'));
    let v = today.verdict;
    match v {
        Err(w) => puts::inner::refused(w, out),
        Ok(()) => {
            let b = today.board;
            of_board(t, what, b, out)
        }
    }
}

fn of_board(t: &[u64; 4096], what: Question, b: RetractableBoard, out: &mut [u8; 65536]) -> usize
    requires { IsBetween t.now }
    ensures { Grows 0 result }
{
    match what {
        Question::Limited => counts::put_limited(limited::is_limited_in_retractions(b), out),
        Question::Count => {
            let mut slots = [0u16; 4096];
            counts::put_count(listing::inner::retractions_into(t, b, &mut slots), out)
        }
        Question::Strict => counts::put_strict(strict::inner::strict_count(t, b), out),
        Question::LastMove => counts::put_last_move(strict::inner::last_move(t, b), out),
    }
}
