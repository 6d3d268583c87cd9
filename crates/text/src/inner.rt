// A board's text into a lent slice, and a board from a text.
ghost use Rattle.std.specs.Prelude.{[]};
ghost use Rattle.geometry.specs.Lines.{IsBetween};
ghost use Rattle.refusal.specs.Said.{Writes};
ghost use Rattle.position_text.specs.inner.Copies.{copied_says};
ghost use Rattle.text.specs.Entries.{Reads, text_on};

use board::{Boarded, RetractableBoard};
use laws::Edition;
use position_text::Form;
use refusal::Refusal;

// The text of any board into a lent slice, whole or not at all.
pub fn print(b: RetractableBoard, out: &mut [u8]) -> Result<usize, usize>
    ensures { Writes [] (text_on b) out.old (copied_says result) out.new }
{
    let line = position_text::inner::line_of(board::inner::position_of(b));
    position_text::inner::copy(line, out)
}

// A board from a text: refusal 14, then 1 to 6. `t` is the table of squares between, lent.
pub fn read(t: &[u64; 4096], text: &[u8], edition: Edition) -> Boarded
    requires { IsBetween t.now }
    ensures { Reads edition text.now result }
{
    let raw = position_text::inner::read_raw(text, edition);
    let form = raw.form;
    match form {
        Form::OutOfForm => {
            let v = Err(Refusal::Text);
            board::inner::board_by(v, board::no_board())
        }
        Form::InForm => {
            let p = raw.position;
            board::inner::board_from(t, p)
        }
    }
}
