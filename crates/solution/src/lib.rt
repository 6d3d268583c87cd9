// Solutions from other solvers, held to the strict list.
#![tactic(auto)]

ghost use Rattle.std.specs.Prelude.{◌≡◌};
ghost use Rattle.solution.specs.Verdicts.{why_of, why_number, Checks};

use laws::{ChessRetraction, Edition};
use refusal::Refusal;
use solution_lines::Unformed;

pub mod inner; // inner.rt: the verdict on the lines of an accepted position; inner/marks.rt

// Why a solution is not judged: 14 and 1 to 6 of its position, 23 with the number of a line, 24.
#[derive(Drop)]
pub enum Why {
    Position(Refusal),
    Line(usize),
    Many,
}

impl From<Unformed> for Why {
    ghost from_gives = { λ u w. w ≡ why_of u };

    fn from(u: Unformed) -> Why {
        match u {
            Unformed::Line(n) => Why::Line(n),
            Unformed::Many => Why::Many,
        }
    }
}

// The lines are the strict list; the number of the first wrong line; the first strict retraction that no line says.
#[derive(Drop)]
pub enum Checked {
    Complete,
    Wrong(usize),
    Incomplete(ChessRetraction),
}

// The number of a refusal.
pub fn number(why: Why) -> u8
    ensures { result ≡ why_number why }
{
    match why {
        Why::Position(r) => refusal::number(r),
        Why::Line(_) => 23,
        Why::Many => 24,
    }
}

// Holds the lines of a solution to the strict list of a position, a text that the caller reads in an edition.
pub fn check(position: &[u8], edition: Edition, lines: &[u8]) -> Result<Checked, Why>
    ensures { Checks edition position.now lines.now result }
{
    let t = tables::between_table();
    let b = text::inner::read(&t, position, edition);
    b.verdict.map_err(Why::Position)?;
    inner::judged(&t, strict::inner::today(b.board), lines)
}
