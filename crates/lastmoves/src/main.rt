// Answers each line of standard input, a text, with the last moves that its board may have had.
#![tactic(auto)]

ghost use Rattle.geometry.specs.Lines.{IsBetween};
ghost use Rattle.io.specs.Counts.{IsPrefixLen};

use input::Step;
use laws::Edition;
use std::io::{ErrorKind, Input};

// What an answer is made in: the two lists of a board, and what is written of them.
#[derive(Drop)]
struct Room {
    listed: [u16; 8192],
    strict: [u16; 8192],
    out: [u8; 196608],
}

fn main(rt: HostRuntime) {
    let t = tables::between_table();
    let mut chunk = io::large_buffer();
    let mut line = io::large_buffer();
    let mut room = Room {
        listed: [0; 8192],
        strict: [0; 8192],
        out: [0; 196608],
    };
    answer_all(&rt, &t, &mut chunk, &mut line, &mut room);
}

// No input uses the turns up. Where nothing more can be written, nothing more is read. `t` is the table of squares between, lent.
fn answer_all(
    rt: &(impl Input + Print + Eprint),
    t: &[u64; 4096],
    chunk: &mut [u8; 65536],
    line: &mut [u8; 65536],
    room: &mut Room,
)
    requires { IsBetween t.now }
{
    let mut c = input::start();
    for _ in 0..u64::MAX {
        match input::next(rt, chunk, line, c) {
            Step::End => {
                return;
            }
            Step::Failed => {
                let _ = eprintln!(rt; "lastmoves: the input cannot be read");
                return;
            }
            Step::Line { len, long: _, next } => {
                if !answer_line(rt, t, &line[..len], room) {
                    return;
                }
                c = next;
            }
        }
    }
}

// One write a line; false where it cannot be written. A line longer than its buffer has no form, and neither have its first 65,536 bytes.
fn answer_line(rt: &(impl Print + Eprint), t: &[u64; 4096], text: &[u8], room: &mut Room) -> bool
    requires { IsBetween t.now }
{
    let n = reply::inner::reply(
        t,
        text,
        Edition::A,
        &mut room.listed,
        &mut room.strict,
        &mut room.out,
    );
    write(rt, &room.out, n)
}

// The first n bytes, in one write; false where they cannot be written, which is told, but where the reader is gone.
fn write(rt: &(impl Print + Eprint), out: &[u8; 196608], n: usize) -> bool
    requires { IsPrefixLen n out.now }
{
    let Err(why) = rt.write_all(&out[..n]) else {
        return true;
    };
    if !matches!(why.kind(), ErrorKind::BrokenPipe) {
        let _ = eprintln!(rt; "lastmoves: the output cannot be written");
    }
    false
}
