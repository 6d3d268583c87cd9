// Answers each line of standard input, a command letter, a space and the rest: `A RECORD` and `B RECORD` by the last moves of the record's board,
// read in that edition, `S HALF FULL TEXT` by the record of a text of edition A.
#![tactic(auto)]

ghost use Rattle.std.specs.Prelude.{◌≤◌};
ghost use Rattle.io.specs.Counts.{IsPrefixLen};

use input::Step;
use laws::Edition;
use refusal::Refusal;
use std::io::{ErrorKind, Input};

mod counters; // counters.rt: the two counters of a text that is sent out

// What an answer is made in: the two lists of a board, and what is written of them.
#[derive(Drop)]
struct Room {
    listed: [u16; 8192],
    strict: [u16; 8192],
    out: [u8; 196608],
}

fn main(rt: HostRuntime) {
    let mut chunk = io::large_buffer();
    let mut line = io::large_buffer();
    let mut room = Room {
        listed: [0; 8192],
        strict: [0; 8192],
        out: [0; 196608],
    };
    answer_all(&rt, &mut chunk, &mut line, &mut room);
}

// No input uses the turns up. Where nothing more can be written, nothing more is read.
fn answer_all(
    rt: &(impl Input + Print + Eprint),
    chunk: &mut [u8; 65536],
    line: &mut [u8; 65536],
    room: &mut Room,
) {
    let mut c = input::start();
    for _ in 0..u64::MAX {
        match input::next(rt, chunk, line, c) {
            Step::End => {
                return;
            }
            Step::Failed => {
                let _ = eprintln!(rt; "pgn: the input cannot be read");
                return;
            }
            Step::Line { len, long: _, next } => {
                if !answer_line(rt, &line[..len], room) {
                    return;
                }
                c = next;
            }
        }
    }
}

// By the command's letter. A line longer than its buffer is answered for what the buffer holds: no record or text of that length is taken.
fn answer_line(rt: &(impl Print + Eprint), line: &[u8], room: &mut Room) -> bool {
    match line {
        [b'A', b' ', record @ ..] => answer_record(rt, record, Edition::A, room),
        [b'B', b' ', record @ ..] => answer_record(rt, record, Edition::B, room),
        [b'S', b' ', sent @ ..] => answer_sent(rt, sent, &mut room.out),
        _ => refused(rt, &mut room.out),
    }
}

fn refused(rt: &(impl Print + Eprint), out: &mut [u8; 196608]) -> bool {
    let n = reply::put_refused(Refusal::Text, out);
    write(rt, out, n)
}

// False where it cannot be written, which is told, but where the reader is gone.
fn write(rt: &(impl Print + Eprint), out: &[u8; 196608], n: usize) -> bool
    requires { IsPrefixLen n out.now }
{
    let Err(why) = rt.write_all(&out[..n]) else {
        return true;
    };
    if !matches!(why.kind(), ErrorKind::BrokenPipe) {
        let _ = eprintln!(rt; "pgn: the output cannot be written");
    }
    false
}

fn answer_record(
    rt: &(impl Print + Eprint),
    record: &[u8],
    edition: Edition,
    room: &mut Room,
) -> bool {
    let named = record_reply::put_edition(edition, &mut room.out);
    if !write(rt, &room.out, named) {
        return false;
    }
    let n = record_reply::reply(
        record,
        edition,
        &mut room.listed,
        &mut room.strict,
        &mut room.out,
    );
    write(rt, &room.out, n)
}

// `HALF FULL TEXT`.
fn answer_sent(rt: &(impl Print + Eprint), line: &[u8], out: &mut [u8; 196608]) -> bool {
    let second = fields::inner::after(line, 0, b' ');
    let third = fields::inner::after(line, second, b' ');
    let half = counters::at(line, 0);
    let full = counters::at(line, second);
    if half > 65535 || full > 65535 {
        return refused(rt, out);
    }
    let n = record_reply::send(&line[third..], half as u16, full as u16, out);
    write(rt, out, n)
}
