// Answers each line of standard input, a verb and its fields between tabs, with one line.
#![tactic(auto)]

ghost use Rattle.std.specs.Prelude.{◌≤◌};
ghost use Rattle.geometry.specs.Lines.{IsBetween};

use input::Step;
use std::io::Input;

mod verbs; // verbs.rt: whose verb a line begins with

fn main(rt: HostRuntime) {
    let t = tables::between_table();
    let mut chunk = io::large_buffer();
    let mut line = io::large_buffer();
    let mut out = io::large_buffer();
    answer_all(&rt, &t, &mut chunk, &mut line, &mut out);
}

// No input uses the turns up. Where nothing more can be written, nothing more is read. `t` is the table of squares between, lent.
fn answer_all(
    rt: &(impl Input + Print),
    t: &[u64; 4096],
    chunk: &mut [u8; 65536],
    line: &mut [u8; 65536],
    out: &mut [u8; 65536],
)
    requires { IsBetween t.now }
{
    let mut c = input::start();
    for _ in 0..u64::MAX {
        let s = input::next(rt, chunk, line, c);
        let Step::Line { len, long: _, next } = s else {
            return;
        };
        if !answer(rt, t, line, len, out) {
            return;
        }
        c = next;
    }
}

// One write a line.
fn answer(
    stdout: &impl Print,
    t: &[u64; 4096],
    line: &[u8; 65536],
    len: usize,
    out: &mut [u8; 65536],
) -> bool
    requires { IsBetween t.now × (len ≤ 65536) }
{
    let asked: &[u8] = line;
    let n = verbs::reply(t, &asked[..len], out);
    let text: &[u8] = out;
    stdout.write_all(&text[..n]).is_ok()
}
