// The lent cursor: whoever steps keeps it in a record of their own, and a press moves it on there.
#![tactic(auto)]

ghost use Rattle.retraction_gen.specs.Cursors.{Steps};
ghost use Rattle.stepping.specs.Presses.{Press};

use laws::ChessRetraction;
use retraction_gen::{RetractionGen, Stepped};

// The next retraction of the caller's own cursor, or the end: what `next` answers, and in the record the cursor that `next` hands back.
pub fn step(cursor: &mut RetractionGen) -> Option<ChessRetraction>
    ensures { Press cursor.old result cursor.new }
{
    let s = (*cursor).next();
    *cursor = s.cursor;
    s.next
}

// A press of a record of its own: whoever calls this needs no walk by hand.
pub fn pressed(g: RetractionGen) -> Stepped
    ensures { Steps g result }
{
    let mut own = g;
    let next = step(&mut own);
    Stepped { cursor: own, next }
}
