// The head of a volume and its table of contents: written, and tested by 17. What they are stands in specs/, and in words in docs/VOLUME.md.
#![tactic(auto)]

ghost use Rattle.std.specs.Prelude.{◌≡◌};
ghost use Rattle.volume_contents.specs.Refusing.{why_number};

use refusal::Refusal;

pub mod inner; // inner.rt: head and rows, written and read; inner/tests.rt: the tests of 17

// A row of the table, as its bytes say it.
#[derive(Clone, Copy)]
pub struct Entry {
    pub number: usize,
    pub edition: u8,
    pub place: usize,
    pub length: u8,
}

// The tests of 17 by what fails them, in their order: three on the head, nine on a row, of which the last two are for the way back to lines; and that a
// register of lines has not too many of them.
#[derive(Clone, Copy)]
pub enum Flaw {
    Mark,
    Version,
    Size,
    Number,
    Edition,
    Length,
    Order,
    Outside,
    Overlap,
    Gap,
    Place,
    EditionB,
    Many,
}

// Why a volume, or the lines of one, are refused, with the line or the row, counted from 1; the head is row 0. Room has the number of bytes needed.
#[derive(Clone, Copy)]
pub enum Why {
    Line(usize),
    Contents(Flaw, usize),
    Body(usize),
    Board(Refusal, usize),
    Room(usize),
}

// The number of a refusal: 14, 17, 18, 1 to 6, 13.
pub fn number(why: Why) -> u8
    ensures { result ≡ why_number why }
{
    match why {
        Why::Line(_) => refusal::number(Refusal::Text),
        Why::Contents(_, _) => 17,
        Why::Body(_) => 18,
        Why::Board(w, _) => refusal::number(w),
        Why::Room(_) => refusal::number(Refusal::Room),
    }
}
