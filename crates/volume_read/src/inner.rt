// The table, the bodies one by one, and their lines.
ghost use Rattle.std.specs.Prelude.{◌≡◌, false, [], ◌∷◌, ◌<◌};
ghost use Rattle.men_field.specs.inner.Lines.{Holds};
ghost use Rattle.volume_contents.specs.Contents.{Table as Sound};
ghost use Rattle.volume_read.specs.Reading.{Reads, FindsIn};
ghost use Rattle.volume_read.specs.inner.Scanning.{TableOf, AnswersAt, Sized, Scanned, Fitted, LinesIn};

use laws::Position;
use men_field::Line;
use position_text::{Form, Raw};
use volume_contents::Why;

// How many rows a table has: refusal 17 for the first test that fails, with its row; the head is row 0. `back` asks for a table of old lines.
pub fn contents(v: &[u8], back: bool) -> Result<usize, Why>
    ensures { TableOf back v.now result }
{
    if let Err(flaw) = volume_contents::inner::tests::head(v, v.len()) {
        return Err(Why::Contents(flaw, 0));
    }
    let n = volume_contents::inner::problems(v);
    if let Err((flaw, i, _)) = volume_contents::inner::walk(v, 6, n, n, 0, 0, back) {
        return Err(Why::Contents(flaw, i + 1));
    }
    Ok(n)
}

// What the body i of n says, in the edition of its row.
fn board_at(v: &[u8], n: usize, i: usize) -> Raw
    requires { Sized v.now n × (i < n) }
    ensures { AnswersAt v.now n i result }
{
    let row = volume_contents::inner::entry(v, 6 + 8 * i);
    let edition = volume_contents::inner::edition_of(row.edition);
    let at = 6 + 8 * n + 34 * i;
    let end = at + 34;
    volume_body::inner::read_body(&v[at..end], edition)
}

// The board of the row i of n: 18, then 1 to 6.
fn board(v: &[u8], n: usize, i: usize) -> Result<Position, Why>
    requires { Sized v.now n × (i < n) }
    ensures { Reads v.now n i result }
{
    let raw = board_at(v, n, i);
    let form = raw.form;
    match form {
        Form::OutOfForm => Err(Why::Body(i + 1)),
        Form::InForm => {
            let p = raw.position;
            let verdict = accept::inner::judge(p);
            match verdict {
                Err(w) => Err(Why::Board(w, i + 1)),
                Ok(()) => Ok(p),
            }
        }
    }
}

// One problem by its number, of a volume whose table is sound: no other body is read, and few rows.
pub fn problem(v: &[u8], n: usize, number: usize) -> Result<Option<Position>, Why>
    requires { (n < 65536) × Sound false v.now n }
    ensures { FindsIn v.now n number result }
{
    let i = volume_contents::inner::find(v, 6, n, number);
    if i >= n {
        return Ok(None);
    }
    let row = volume_contents::inner::entry(v, 6 + 8 * i);
    if row.number != number {
        return Ok(None);
    }
    let p = board(v, n, i)?;
    Ok(Some(p))
}

// How many bytes the lines have: 18, then 1 to 6, row by row.
pub fn scan(v: &[u8], n: usize) -> Result<usize, Why>
    requires { Sized v.now n }
    ensures { Scanned v.now n result }
{
    let mut size = 0;
    for i in 0..n {
        let p = board(v, n, i)?;
        let l = position_text::inner::line_of(p);
        size = size + l.len + 1;
    }
    Ok(size)
}

fn newline() -> Line
    ensures { Holds result (10 ∷ []) }
{
    let none = Line {
        bytes: [0; 81],
        len: 0,
    };
    men_field::inner::push(none, b'\n')
}

// The lines of n bodies that are known to have boards.
pub fn put_lines(v: &[u8], out: &mut [u8], n: usize)
    requires { Fitted v.now out.old n }
    ensures { LinesIn v.now n out.old out.new }
{
    let mut to = 0;
    for i in 0..n {
        let raw = board_at(v, n, i);
        let l = position_text::inner::line_of(raw.position);
        let end = to + l.len;
        volume_make::inner::put(out, to, l);
        volume_make::inner::put(out, end, newline());
        to = end + 1;
    }
}
