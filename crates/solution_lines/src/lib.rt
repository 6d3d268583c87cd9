// The lines of a solution: bytes cut at newlines, each line our printed fields of a retraction without the list mark.
#![tactic(auto)]

ghost use Rattle.solution_lines.specs.Lines.{lines_of, TellsForm};

pub mod inner; // inner.rt: the retraction that a line says

// Why the lines are not in form: the number of the first line out of form; or a line too many.
#[derive(Drop)]
pub enum Unformed {
    Line(usize),
    Many,
}

const MOST_LINES: usize = 4096;

// The first line that is out of form or one too many, whichever comes first: 23, 24.
pub fn form_of(lines: &[u8]) -> Result<(), Unformed>
    ensures { TellsForm (lines_of lines.now) result }
{
    let mut at = 0;
    // A turn for each line that may stand, and one for a line too many.
    for n in 0..MOST_LINES + 1 {
        if at == lines.len() {
            return Ok(());
        }
        let stop = chunks::inner::find(lines, at, lines.len());
        if !inner::is_formed(&lines[at..stop]) {
            return Err(Unformed::Line(n + 1));
        }
        at = chunks::inner::past(stop, lines.len());
    }
    Err(Unformed::Many)
}
