// The verbs that ask for the cursor: of a text's board, its masks, its entries and what it yields; of a question's fields, any cursor pressed once.
// `t` is the table of squares between, lent.
ghost use Rattle.geometry.specs.Lines.{IsBetween};
ghost use Rattle.puts.specs.inner.Growing.{Grows};

use board::RetractableBoard;
use retraction_gen::{RetractionGen, Stepped};

mod entries; // entries.rt: masks and entries, put
mod presses; // presses.rt: any cursor read, pressed once and put
mod sequences; // sequences.rt: all that a board's cursor yields

#[derive(Drop)]
enum Question {
    Entries,
    Masks,
    Sequence,
    Presses,
}

// The answer to a line of one of these verbs, 0 bytes to any other.
pub fn answer(line: &[u8], out: &mut [u8; 65536]) -> usize
    ensures { Grows 0 result }
{
    let t = tables::between_table();
    answer_with(&t, line, out)
}

// The same over a lent table.
pub fn answer_with(t: &[u64; 4096], line: &[u8], out: &mut [u8; 65536]) -> usize
    requires { IsBetween t.now }
    ensures { Grows 0 result }
{
    if fields::inner::starts(line, b"cursor\t") {
        return presses::press(false, line, out);
    }
    if fields::inner::starts(line, b"press\t") {
        return presses::press(true, line, out);
    }
    let Some(what) = asked(line) else {
        return 0;
    };
    of_text(t, what, line, out)
}

fn asked(line: &[u8]) -> Option<Question> {
    if fields::inner::starts(line, b"entries\t") {
        return Some(Question::Entries);
    }
    if fields::inner::starts(line, b"masks\t") {
        return Some(Question::Masks);
    }
    if fields::inner::starts(line, b"sequence\t") {
        return Some(Question::Sequence);
    }
    if fields::inner::starts(line, b"presses\t") {
        return Some(Question::Presses);
    }
    None
}

fn of_text(t: &[u64; 4096], what: Question, line: &[u8], out: &mut [u8; 65536]) -> usize
    requires { IsBetween t.now }
    ensures { Grows 0 result }
{
    let today = board_field::inner::read_with(t, line, fields::inner::after(line, 0, b'\t'));
    let v = today.verdict;
    match v {
        Err(w) => puts::inner::refused(w, out),
        Ok(()) => {
            let b = today.board;
            of_board(what, b, out)
        }
    }
}

fn of_board(what: Question, b: RetractableBoard, out: &mut [u8; 65536]) -> usize
    ensures { Grows 0 result }
{
    match what {
        Question::Entries => entries::put_made(RetractionGen::new_legal(b), out),
        Question::Masks => entries::put_masks(retraction_gen::uncaptured_candidates(b), out),
        Question::Sequence => sequences::put(false, RetractionGen::new_legal(b), out),
        Question::Presses => sequences::put(true, RetractionGen::new_legal(b), out),
    }
}

// A cursor pressed once, lent or by value.
fn moved_on(lent: bool, g: RetractionGen) -> Stepped {
    if lent {
        return stepping::pressed(g);
    }
    g.next()
}
