// The answer to a text and a depth, in writing, and that to a line. `t` is the table of squares between, lent.
ghost use Rattle.std.specs.Prelude.{◌≡◌, [], ◌++◌, cond, ◌+◌, ◌≤◌, min, length, take};
ghost use Rattle.output.specs.Appending.{Adds};
ghost use Rattle.geometry.specs.Lines.{IsBetween};
ghost use Rattle.text.specs.Entries.{text_on};
ghost use Rattle.reply.specs.Replies.{newline, Shows};
ghost use Rattle.history.specs.Histories.{plies_of, Answers};
ghost use Rattle.history_reply.specs.Replies.{ply_row, plies_text, history_text, AnswersText, Replies};

use board::RetractableBoard;
use history::{History, Why};
use laws::{ChessRetraction, Edition};
use refusal::Refusal;

// A depth as a byte. All above 255 are out of range as it is.
pub fn small(depth: u16) -> u8
    ensures { result ≡ min depth 255 }
{
    depth.min(255) as u8
}

// A ply, to a line.
fn put_ply(out: &mut [u8], len: usize, r: ChessRetraction) -> usize
    requires { len + 9 ≤ length out.old }
    ensures { Adds out.old len (ply_row r) result out.new }
{
    let fields = rows::inner::fields_of(r);
    let a = output::put_bytes(out, len, &fields).unwrap_or(len);
    output::put_bytes(out, a, b"\n").unwrap_or(a)
}

// A ply, if there are so many.
fn put_if(out: &mut [u8], len: usize, there: bool, r: ChessRetraction) -> usize
    requires { len + 9 ≤ length out.old }
    ensures { Adds out.old len (cond there (ply_row r) []) result out.new }
{
    if there {
        return put_ply(out, len, r);
    }
    len
}

// The plies of a history, the latest first.
fn put_plies(out: &mut [u8], len: usize, h: History, depth: u8) -> usize
    requires { (len + 36 ≤ length out.old) × (1 ≤ depth) × (depth ≤ 4) }
    ensures { Adds out.old len (plies_text (take depth (plies_of h))) result out.new }
{
    let first = put_ply(out, len, h.first);
    let second = put_if(out, first, 2 <= depth, h.second);
    let third = put_if(out, second, 3 <= depth, h.third);
    put_if(out, third, 4 <= depth, h.fourth)
}

// A board's text, to a line, with room for four plies behind it.
fn put_text(b: RetractableBoard, out: &mut [u8; 196608]) -> usize
    ensures { Shows (text_on b ++ newline) result out.old out.new × (result + 36 ≤ length out.old) }
{
    match text::inner::print(b, out) {
        Ok(n) => output::put_bytes(out, n, b"\n").unwrap_or(n),
        Err(_) => 0,
    }
}

// What is told of an accepted board, under its text.
fn put_history(
    b: RetractableBoard,
    depth: u8,
    told: Result<Option<History>, Why>,
    out: &mut [u8; 196608],
) -> usize
    requires { Answers b depth told }
    ensures { Shows (history_text b depth told) result out.old out.new }
{
    match told {
        Ok(Some(h)) => {
            let n = put_text(b, out);
            put_plies(out, n, h, depth)
        }
        Ok(None) => {
            let n = put_text(b, out);
            output::put_bytes(out, n, b"none\n").unwrap_or(n)
        }
        Err(why) => reply::inner::put_number(history::number(why), out),
    }
}

// The text is refused before the depth.
pub fn answer(text: &[u8], depth: u8, out: &mut [u8; 196608]) -> usize
    ensures { AnswersText text.now depth result out.old out.new }
{
    let t = tables::between_table();
    answer_with(&t, text, depth, out)
}

// The same over a lent table.
pub fn answer_with(t: &[u64; 4096], text: &[u8], depth: u8, out: &mut [u8; 196608]) -> usize
    requires { IsBetween t.now }
    ensures { AnswersText text.now depth result out.old out.new }
{
    let r = text::inner::read(t, text, Edition::A);
    match r.verdict {
        Err(why) => reply::put_refused(why, out),
        Ok(()) => {
            let b = r.board;
            put_history(b, depth, history::inner::history_of(t, b, depth), out)
        }
    }
}

// The line cut at its last space.
pub fn reply(t: &[u64; 4096], line: &[u8], out: &mut [u8; 196608]) -> usize
    requires { IsBetween t.now }
    ensures { Replies line.now result out.old out.new }
{
    let j = record_fields::inner::last(line, line.len());
    if j == 0 {
        return reply::put_refused(Refusal::Text, out);
    }
    let depth = record_fields::inner::count(&line[j..]);
    if 10000 < depth {
        return reply::put_refused(Refusal::Text, out);
    }
    let k = j - 1;
    answer_with(t, &line[..k], small(depth), out)
}
