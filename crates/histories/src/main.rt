// Answers each line of standard input, a text of edition A, a space and a depth, by the first history of so many plies.
#![tactic(auto)]

ghost use Rattle.std.specs.Prelude.{◌≤◌};
ghost use Rattle.geometry.specs.Lines.{IsBetween};
ghost use Rattle.io.specs.Counts.{IsPrefixLen};

use input::Step;
use refusal::Refusal;
use std::io::{ErrorKind, Input};

fn main(rt: HostRuntime) {
    let t = tables::between_table();
    let mut chunk = io::large_buffer();
    let mut line = io::large_buffer();
    let mut out = [0u8; 196608];
    answer_all(&rt, &t, &mut chunk, &mut line, &mut out);
}

// No input uses the turns up. Where nothing more can be written, nothing more is read. `t` is the table of squares between, lent.
fn answer_all(
    rt: &(impl Input + Print + Eprint),
    t: &[u64; 4096],
    chunk: &mut [u8; 65536],
    line: &mut [u8; 65536],
    out: &mut [u8; 196608],
)
    requires { IsBetween t.now }
{
    let mut c = input::start();
    for _ in 0..u64::MAX {
        let s = input::next(rt, chunk, line, c);
        match s {
            Step::End => {
                return;
            }
            Step::Failed => {
                let _ = eprintln!(rt; "histories: the input cannot be read");
                return;
            }
            Step::Line { len, long, next } => {
                if !answer(rt, t, line, len, long, out) {
                    return;
                }
                c = next;
            }
        }
    }
}

// One write a line. A line longer than its buffer has no form, though what the buffer holds may have it.
fn answer(
    rt: &(impl Print + Eprint),
    t: &[u64; 4096],
    line: &[u8; 65536],
    len: usize,
    long: bool,
    out: &mut [u8; 196608],
) -> bool
    requires { IsBetween t.now × (len ≤ 65536) }
{
    if long {
        let n = reply::put_refused(Refusal::Text, out);
        return write(rt, out, n);
    }
    let asked: &[u8] = line;
    let n = history_reply::inner::reply(t, &asked[..len], out);
    write(rt, out, n)
}

// False where it cannot be written, which is told, but where the reader is gone.
fn write(rt: &(impl Print + Eprint), out: &[u8; 196608], n: usize) -> bool
    requires { IsPrefixLen n out.now }
{
    let printed: &[u8] = out;
    let Err(why) = rt.write_all(&printed[..n]) else {
        return true;
    };
    if !matches!(why.kind(), ErrorKind::BrokenPipe) {
        let _ = eprintln!(rt; "histories: the output cannot be written");
    }
    false
}
