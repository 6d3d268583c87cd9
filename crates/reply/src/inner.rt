// A refusal by its number; the answer of a board that its gate let pass: the ported list, then the strict one, then the text, the checkers and
// both lists in writing; and the answer to a line. `t` is the table of squares between, lent.
ghost use Rattle.std.specs.Prelude.{◌≡◌, map, ◌≤◌, length};
ghost use Rattle.geometry.specs.Lines.{IsBetween};
ghost use Rattle.laws.specs.Retractions.{packed};
ghost use Rattle.refusal.specs.Refusals.{nothing_refused};
ghost use Rattle.refusal.specs.Said.{first_failing};
ghost use Rattle.board.specs.Gate.{gate_of};
ghost use Rattle.retraction_gen.specs.Sequence.{sequence_on};
ghost use Rattle.reply.specs.Replies.{refused_text, listed_tests, board_text, Shows, AnswersBoard, Replies, listed_then};

use board::RetractableBoard;
use laws::Edition;
use refusal::Refusal;
use slots::Unlisted;

// `refused N`, and nothing else, by the number alone: records are refused by numbers that no board has.
pub fn put_number(number: u8, out: &mut [u8; 196608]) -> usize
    ensures { Shows (refused_text number) result out.old out.new }
{
    let a = output::put_bytes(out, 0, b"refused ").unwrap_or(0);
    let d = output::put_decimal(out, a, number as u64).unwrap_or(a);
    output::put_bytes(out, d, b"\n").unwrap_or(d)
}

// The board's own checkers are the Laws', since its gate let it pass.
fn put_lists(b: RetractableBoard, listed: &[u16], strict: &[u16], out: &mut [u8; 196608]) -> usize
    requires { (gate_of b ≡ nothing_refused) × (length listed.now ≤ 8192) × (length strict.now ≤ 8192) }
    ensures { Shows (board_text b listed.now strict.now) result out.old out.new }
{
    let p = text::inner::print(b, out);
    match p {
        Ok(n) => {
            let end = output::put_bytes(out, n, b"\n").unwrap_or(n);
            rows::report(out, end, b.checkers, listed, strict).unwrap_or(end)
        }
        Err(_) => 0,
    }
}

fn put_strict(
    t: &[u64; 4096],
    b: RetractableBoard,
    listed: &[u16],
    strict: &mut [u16],
    out: &mut [u8; 196608],
) -> usize
    requires { IsBetween t.now × (first_failing (listed_tests b) ≡ 0) × (listed.now ≡ map packed (sequence_on b)) × (length strict.old ≡ 8192) }
    ensures { AnswersBoard 0 b result out.old out.new strict.old strict.new }
{
    let s = strict::inner::list(t, b, strict);
    match s {
        Ok(n) => put_lists(b, listed, &strict[..n], out),
        Err(why) => match why {
            Unlisted::Room(_) => super::put_refused(Refusal::Room, out),
            Unlisted::Refused(r) => super::put_refused(r, out),
        },
    }
}

pub fn put_board(
    t: &[u64; 4096],
    b: RetractableBoard,
    listed: &mut [u16],
    strict: &mut [u16],
    out: &mut [u8; 196608],
) -> usize
    requires { IsBetween t.now × (gate_of b ≡ nothing_refused) × (length listed.old ≡ 8192) × (length strict.old ≡ 8192) }
    ensures { AnswersBoard 0 b result out.old out.new strict.old strict.new × (listed.new ≡ listed_then 0 b listed.old) }
{
    let l = listing::inner::list(t, b, listed);
    match l {
        Ok(n) => put_strict(t, b, &listed[..n], strict, out),
        Err(why) => match why {
            Unlisted::Room(_) => super::put_refused(Refusal::Room, out),
            Unlisted::Refused(r) => super::put_refused(r, out),
        },
    }
}

// The text read, then the answer of its board.
pub fn reply(
    t: &[u64; 4096],
    line: &[u8],
    edition: Edition,
    listed: &mut [u16; 8192],
    strict: &mut [u16; 8192],
    out: &mut [u8; 196608],
) -> usize
    requires { IsBetween t.now }
    ensures { Replies edition line.now result out.old out.new listed.old listed.new strict.old strict.new }
{
    let b = text::inner::read(t, line, edition);
    let v = b.verdict;
    match v {
        Err(why) => super::put_refused(why, out),
        Ok(()) => {
            let board = b.board;
            put_board(t, board, listed, strict, out)
        }
    }
}
