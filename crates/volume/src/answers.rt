// What a call comes to, in writing: a line on standard output, or what failed on standard error.
ghost use Rattle.std.specs.Prelude.{◌≤◌, length};

use super::Names;
use super::sink::Sink;
use std::io::Write;
use volume_contents::{Flaw, Why};

#[derive(Drop)]
pub enum Answer {
    Problems(u16),
    Absent,
    Shown,
}

#[derive(Drop)]
pub enum Fault {
    Refused(Why),
    NoNumber,
    Unread,
    Changed,
    Unwritten,
}

impl From<Why> for Fault {
    fn from(why: Why) -> Fault {
        Fault::Refused(why)
    }
}

// `stderr` takes a name whose bytes are no text. A place in the file is a line where `of_lines`.
pub(super) fn tell(
    rt: &(impl Print + Eprint),
    stderr: &impl Print,
    answer: Result<Answer, Fault>,
    of_lines: bool,
    names: Names,
    out: &mut [u8; 65536],
) {
    match answer {
        Ok(Answer::Problems(n)) => say_problems(rt, out, n),
        Ok(Answer::Absent) => {
            let mut s = Sink::to_output(rt, out);
            s.put(b"absent\n");
            say(rt, &mut s);
        }
        Ok(Answer::Shown) => {}
        Err(Fault::Refused(why)) => say_refused(rt, out, why, of_lines),
        Err(Fault::NoNumber) => fail(stderr, names.other, b" is no number\n"),
        Err(Fault::Unread) => fail(stderr, names.input, b" cannot be read\n"),
        Err(Fault::Changed) => fail(stderr, names.input, b" has changed\n"),
        Err(Fault::Unwritten) => fail(stderr, names.other, b" cannot be written\n"),
    }
}

fn fail(stderr: &impl Print, name: &[u8], what: &[u8]) {
    let _ = stderr.write_all(b"volume: ");
    let _ = stderr.write_all(name);
    let _ = stderr.write_all(what);
}

// One write.
pub(super) fn say<W: Write>(stderr: &impl Eprint, s: &mut Sink<W>)
    requires { s.old.len ≤ 65536 }
{
    s.flush();
    if !s.is_good {
        let _ = eprintln!(stderr; "volume: the output cannot be written");
    }
}

fn say_problems(rt: &(impl Print + Eprint), out: &mut [u8; 65536], n: u16) {
    let mut s = Sink::to_output(rt, out);
    s.put_number(n as usize);
    s.put(if n == 1 {
        b" problem\n"
    } else {
        b" problems\n"
    });
    say(rt, &mut s);
}

fn say_refused(rt: &(impl Print + Eprint), out: &mut [u8; 65536], why: Why, of_lines: bool) {
    let mut s = Sink::to_output(rt, out);
    s.put(b"refused ");
    s.put_number(volume_contents::number(why) as usize);
    put_why(&mut s, why, of_lines);
    s.put(b"\n");
    say(rt, &mut s);
}

fn put_why<W: Write>(s: &mut Sink<W>, why: Why, of_lines: bool)
    requires { s.old.len ≤ 65536 }
    ensures { s.new.len ≤ 65536 }
{
    match why {
        Why::Line(k) | Why::Body(k) | Why::Board(_, k) => put_place(s, k, of_lines),
        Why::Contents(f, k) => {
            put_place(s, k, of_lines);
            s.put(b": ");
            s.put(flaw(f));
        }
        Why::Room(_) => {}
    }
}

// The head is at no place.
fn put_place<W: Write>(s: &mut Sink<W>, k: usize, of_lines: bool)
    requires { s.old.len ≤ 65536 }
    ensures { s.new.len ≤ 65536 }
{
    if k == 0 {
        return;
    }
    if of_lines {
        s.put(b" line ");
    } else {
        s.put(b" row ");
    }
    s.put_number(k);
}

fn flaw(f: Flaw) -> &'static [u8]
    ensures { length result.now ≤ 100 }
{
    match f {
        Flaw::Mark => b"mark",
        Flaw::Version => b"version",
        Flaw::Size => b"size",
        Flaw::Number => b"number",
        Flaw::Edition => b"edition",
        Flaw::Length => b"length",
        Flaw::Order => b"order",
        Flaw::Outside => b"outside",
        Flaw::Overlap => b"overlap",
        Flaw::Gap => b"gap",
        Flaw::Place => b"place",
        Flaw::EditionB => b"edition-b",
        Flaw::Many => b"many",
    }
}
