// The text of a board: its position's, printed behind the board's gate, and read into a board. What the entries answer stands in specs/Entries, what a text
// is in position_text/specs/Form.
#![tactic(auto)]

ghost use Rattle.std.specs.Prelude.{◌≡◌};
ghost use Rattle.refusal.specs.Said.{Writes};
ghost use Rattle.board.specs.Gate.{board_tests};
ghost use Rattle.position_text.specs.inner.Copies.{copied_says};
ghost use Rattle.text.specs.Entries.{Reads, text_on, printed_says};

use board::{Boarded, RetractableBoard};
use laws::Edition;
use refusal::Refusal;

pub mod inner; // inner.rt: the printer without the gate, and the reader with a lent table

// Why a board is not printed into a lent slice: how many bytes are needed, or its refusal.
#[derive(Drop)]
pub enum Unprinted {
    Room(usize),
    Refused(Refusal),
}

// A board from a text, which the caller reads in an edition: refusal 14, then 1 to 6.
pub fn read(text: &[u8], edition: Edition) -> Boarded
    ensures { Reads edition text.now result }
{
    let t = tables::between_table();
    inner::read(&t, text, edition)
}

// The text of a board, into a lent slice: refusals 1 to 7, then 13. Only a whole text is written.
pub fn print(b: RetractableBoard, out: &mut [u8]) -> Result<usize, Unprinted>
    ensures { Writes (board_tests b) (text_on b) out.old (printed_says result) out.new }
{
    let t = tables::between_table();
    let v = board::inner::gate(&t, b);
    match v {
        Err(r) => Err(Unprinted::Refused(r)),
        Ok(()) => told(inner::print(b, out)),
    }
}

fn told(c: Result<usize, usize>) -> Result<usize, Unprinted>
    ensures { printed_says result ≡ copied_says c }
{
    match c {
        Ok(n) => Ok(n),
        Err(n) => Err(Unprinted::Room(n)),
    }
}
