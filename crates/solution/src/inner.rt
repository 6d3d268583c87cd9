// The verdict on the lines of an accepted position. `t` is the table of squares between, lent.
ghost use Rattle.std.specs.Prelude.{◌≡◌, not, ◌<◌, Ok};
ghost use Rattle.squares.specs.Tests.{◌and◌};
ghost use Rattle.geometry.specs.Lines.{IsBetween};
ghost use Rattle.laws.specs.Boards.{pos_at};
ghost use Rattle.rows.specs.inner.Marked.{marked};
ghost use Rattle.strict_test.specs.inner.Strictly.{Today, strict_for};
ghost use Rattle.strict_search.specs.inner.Searching.{test_of};
ghost use Rattle.solution_lines.specs.Lines.{lines_of, TellsForm};
ghost use Rattle.solution.specs.Verdicts.{Tells};
ghost use Rattle.solution.specs.inner.Marked.{Lacks};
ghost use Rattle.solution.specs.inner.Judged.{StrictAt};

use super::{Checked, Why};
use laws::{ChessRetraction, Position};

mod marks; // marks.rt: the places of the retractions that were said, as bits

// A line is right where its retraction is strict and was not said before.
fn is_right(t: &[u64; 4096], p: Position, seen: &[u64; 768], r: ChessRetraction, i: usize) -> bool
    requires { (IsBetween t.now × Today p) × (i < 49152) }
    ensures { result ≡ (strict_for (pos_at p) r and not (marked seen.now i)) }
{
    let strict = strict_test::inner::is_strict(t, p, r);
    let said = marks::is_marked(seen, i);
    strict & !said
}

// The first strict retraction that was not said.
fn missing(t: &[u64; 4096], p: Position, seen: &[u64; 768]) -> Checked
    requires { IsBetween t.now × Today p }
    ensures { Lacks (test_of (pos_at p)) (marked seen.now) result }
{
    let mut i: usize = 0;
    // No `for`: the turns go from one strict place to the next, past all places between.
    while i < strict_search::inner::PLACES {
        let j = strict_search::inner::next_from(t, p, i);
        if j == strict_search::inner::PLACES {
            return Checked::Complete;
        }
        if !marks::is_marked(seen, j) {
            return Checked::Incomplete(strict_search::inner::candidate(j));
        }
        i = j + 1;
    }
    Checked::Complete
}

// The first wrong line, or what is missing. All lines are in form.
fn verdict(t: &[u64; 4096], p: Position, lines: &[u8]) -> Checked
    requires { (IsBetween t.now × Today p) × TellsForm (lines_of lines.now) (Ok tt) }
    ensures { Tells (StrictAt (pos_at p)) (lines_of lines.now) (Ok result) }
{
    let mut seen = [0u64; 768];
    let mut at = 0;
    let mut n = 0;
    // No `for` over the lines that may stand, as in `form_of`: that there are no more is known by `TellsForm` alone.
    while at < lines.len() {
        let stop = chunks::inner::find(lines, at, lines.len());
        let r = solution_lines::inner::read_line(&lines[at..stop]);
        let i = marks::place_of(r);
        if !is_right(t, p, &seen, r, i) {
            return Checked::Wrong(n + 1);
        }
        marks::mark(&mut seen, i);
        at = chunks::inner::past(stop, lines.len());
        n += 1;
    }
    missing(t, p, &seen)
}

// The form of all lines, and then the verdict.
pub fn judged(t: &[u64; 4096], p: Position, lines: &[u8]) -> Result<Checked, Why>
    requires { IsBetween t.now × Today p }
    ensures { Tells (StrictAt (pos_at p)) (lines_of lines.now) result }
{
    solution_lines::form_of(lines)?;
    Ok(verdict(t, p, lines))
}
