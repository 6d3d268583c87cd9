// The iterator's sequence into lent 16-bit slots.
#![tactic(auto)]

ghost use Rattle.std.specs.Prelude.{map};
ghost use Rattle.laws.specs.Retractions.{packed};
ghost use Rattle.refusal.specs.Said.{Writes};
ghost use Rattle.retraction_gen.specs.Making.{list_tests};
ghost use Rattle.retraction_gen.specs.Sequence.{sequence_on};
ghost use Rattle.slots.specs.Slots.{listed_says};

use board::RetractableBoard;
use slots::Unlisted;

pub mod inner; // inner.rt: the same over a lent table, and the sequence of an accepted board, counted and written

// The retractions of a board in the iterator's order: refusals 1 to 7, 8, then 13.
pub fn retractions_into(b: RetractableBoard, slots: &mut [u16]) -> Result<usize, Unlisted>
    ensures { Writes (list_tests b) (map packed (sequence_on b)) slots.old (listed_says result) slots.new }
{
    let t = tables::between_table();
    inner::retractions_into(&t, b, slots)
}
