// The lines of standard input one after the other in bounded memory.
#![tactic(auto)]

ghost use Rattle.std.specs.Prelude.{◌≡◌, ◌≤◌, IfSome};
ghost use Rattle.input.specs.declared.Step.TheVariants.{Line};
ghost use Rattle.chunks.specs.inner.Splitting.{Fit};
ghost use Rattle.input.specs.inner.Parts.{is_open, cursor_of, opened_at, ending_of, filled_of, Turns};
ghost use Rattle.input.specs.Reading.{unread_at, step_for, Gives};

use chunks::{Ending, Part};
use std::io::{Input, Read};

// The bytes at..end of what was read are unread.
#[derive(Clone, Copy)]
pub struct Cursor {
    pub at: usize,
    pub end: usize,
}

// A line whose first `len` bytes are in the line's buffer (`long`: it had more), the end of the input, or a read that failed.
#[derive(Drop)]
pub enum Step {
    Line {
        len: usize,
        long: bool,
        next: Cursor,
    },
    End,
    Failed,
}

// Nothing is read yet.
pub fn start() -> Cursor
    ensures { (result.at ≡ 0) × (result.end ≡ 0) }
{
    Cursor { at: 0, end: 0 }
}

// The next line. Nothing says that an input ends, so the reads are counted up to a number that no input reaches.
pub fn next(stdin: &impl Input, chunk: &mut [u8; 65536], line: &mut [u8; 65536], c: Cursor) -> Step
    ensures { Gives chunk.old line.old c result chunk.new line.new }
{
    let mut p = chunks::inner::cut(chunk, line, opened(c));
    for _ in 0..u64::MAX {
        if !is_open(p) {
            break;
        }
        p = turn(stdin, chunk, line, p);
    }
    step_of(p)
}

fn opened(c: Cursor) -> Part
    ensures { (result ≡ opened_at (unread_at c)) × Fit result }
{
    let u = unread(c);
    Part {
        at: u.at,
        end: u.end,
        len: 0,
        long: false,
        ending: Ending::Open,
    }
}

// A cursor that no chunk has says that nothing is read.
#[tactic(auto, using(crate::proofs::Searched::unread_there))]
fn unread(c: Cursor) -> Cursor
    ensures { (result ≡ unread_at c) × (result.at ≤ result.end) × (result.end ≤ 65536) }
{
    if c.at <= c.end && c.end <= 65536 {
        return c;
    }
    start()
}

fn is_open(p: Part) -> bool
    ensures { result ≡ is_open p.ending }
{
    matches!(p.ending, Ending::Open)
}

// Reads once, and cuts what came.
fn turn(stdin: &impl Input, chunk: &mut [u8; 65536], line: &mut [u8; 65536], p: Part) -> Part
    requires { Fit p }
    ensures { Turns p line.old result chunk.new line.new }
{
    let mut reader = stdin.reader();
    let got = reader.read(chunk).ok();
    chunks::inner::cut(chunk, line, filled(p, got))
}

// After a read that brought `got` bytes, or failed.
fn filled(p: Part, got: Option<usize>) -> Part
    requires fit { Fit p }
    requires within { IfSome got (λ n. n ≤ 65536) }
    ensures value { result ≡ filled_of p got }
    ensures fits { Fit result }
{
    Part {
        at: 0,
        end: got.unwrap_or(0),
        len: p.len,
        long: p.long,
        ending: ending_of(got),
    }
}

fn ending_of(got: Option<usize>) -> Ending
    ensures { result ≡ ending_of got }
{
    match got {
        None => Ending::Failed,
        Some(0) => Ending::Over,
        Some(_) => Ending::Open,
    }
}

// At the end of the input what has no newline is a line too. A line that a failed read cut off is none.
fn step_of(p: Part) -> Step
    ensures { result ≡ step_for p.ending p.len p.long (cursor_of p) }
{
    match p.ending {
        Ending::Newline => line_of(p),
        Ending::Over => if p.len > 0 { line_of(p) } else { Step::End },
        Ending::Failed | Ending::Open => Step::Failed,
    }
}

fn line_of(p: Part) -> Step
    ensures { result ≡ Line p.len p.long (cursor_of p) }
{
    Step::Line {
        len: p.len,
        long: p.long,
        next: Cursor {
            at: p.at,
            end: p.end,
        },
    }
}
