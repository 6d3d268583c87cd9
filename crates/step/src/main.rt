// The stepping screen: shows the board of a text, and one of its last moves for each press. The text is the argument; without one, texts are
// lines of standard input, each with its presses behind it.
#![tactic(auto)]

ghost use Rattle.std.specs.Prelude.{◌≤◌, IfOk, IfSome};
ghost use Rattle.geometry.specs.Lines.{IsBetween};
ghost use Rattle.io.specs.Counts.{IsPrefixLen};

use laws::Edition;
use presses::Presses;
use refusal::Refusal;
use retraction_gen::RetractionGen;
use screen::Screen;
use std::env::FillError;
use std::io::{ErrorKind, Input, IsTerminal};
use std::rt::Env;

mod keys; // keys.rt: the keys of a terminal
mod presses; // presses.rt: the presses that standard input brings

// A screen, and how many slots its strict list has.
#[derive(Drop)]
struct Opened {
    screen: Screen,
    strict: usize,
}

fn main(rt: HostRuntime) {
    let t = tables::between_table();
    let mut chunk = io::large_buffer();
    let mut line = io::large_buffer();
    let mut strict = [0u16; 8192];
    let mut out = [0u8; 196608];
    let text = argument(&rt, &mut line);
    let by_key = text.is_some() && rt.stdin().is_terminal();
    let mut presses = Presses::new(&rt, by_key, &mut chunk, &mut line);
    match text {
        Some(len) => {
            show(&rt, &t, &mut presses, len, &mut strict, &mut out);
        }
        None => show_all(&rt, &t, &mut presses, &mut strict, &mut out),
    }
}

// How many bytes of the first argument are in `line`, if there is one: none of one that is longer.
fn argument(env: &impl Env, line: &mut [u8; 65536]) -> Option<usize>
    ensures { IfSome result (λ n. n ≤ 65536) }
{
    match env.arg(1, line) {
        Ok(len) => Some(len),
        Err(FillError::TooLong) => Some(0),
        Err(FillError::NotPresent) => None,
    }
}

// Each text of standard input, which does not use the turns up. `t` is the table of squares between, lent.
fn show_all(
    rt: &(impl Print + Eprint),
    t: &[u64; 4096],
    presses: &mut Presses<impl Input + Eprint>,
    strict: &mut [u16; 8192],
    out: &mut [u8; 196608],
)
    requires { IsBetween t.now }
{
    for _ in 0..u64::MAX {
        let Some(len) = presses.next_line() else {
            return;
        };
        if !show(rt, t, presses, len, strict, out) {
            return;
        }
    }
}

// The text in the first `len` bytes of the line, and its presses; false where nothing more is to be read, or can be written.
fn show(
    rt: &(impl Print + Eprint),
    t: &[u64; 4096],
    presses: &mut Presses<impl Input + Eprint>,
    len: usize,
    strict: &mut [u16; 8192],
    out: &mut [u8; 196608],
) -> bool
    requires { IsBetween t.now × (len ≤ 65536) }
{
    let line = &*presses.line;
    match open(t, &line[..len], strict) {
        Err(why) => {
            let n = reply::put_refused(why, out);
            write(rt, out, n)
        }
        Ok(opened) => {
            let n = screen::opening(opened.screen.board, out);
            write(rt, out, n)
                && step_through(rt, t, presses, opened.screen, &strict[..opened.strict], out)
        }
    }
}

// The board of a text, its cursor and its strict list: refusals 14, 1 to 6, 8, 13.
fn open(t: &[u64; 4096], text: &[u8], strict: &mut [u16; 8192]) -> Result<Opened, Refusal>
    requires { IsBetween t.now }
    ensures { IfOk result (λ o. o.strict ≤ 8192) }
{
    let b = text::inner::read(t, text, Edition::A);
    b.verdict?;
    let board = b.board;
    let screen = Screen {
        board,
        cursor: RetractionGen::new_legal(board)?,
        listed: 0,
        strict: 0,
    };
    let strict = strict::inner::strict_into(t, board, strict)?;
    Ok(Opened { screen, strict })
}

// A press after the other, up to the end of the list or to `q`; false where nothing more is to be read, or can be written.
fn step_through(
    rt: &(impl Print + Eprint),
    t: &[u64; 4096],
    presses: &mut Presses<impl Input + Eprint>,
    start: Screen,
    strict: &[u16],
    out: &mut [u8; 196608],
) -> bool
    requires { IsBetween t.now }
{
    let mut s = start;
    for _ in 0..u64::MAX {
        let Some(byte) = presses.next() else {
            return false;
        };
        if byte == b'q' {
            return true;
        }
        let z = screen::inner::press(t, s, strict, out);
        if !write(rt, out, z.size) {
            return false;
        }
        if z.next.is_none() {
            return true;
        }
        s = z.screen;
    }
    false
}

// The first n bytes, in one write; false where they cannot be written, which is told, but where the reader is gone.
fn write(rt: &(impl Print + Eprint), out: &[u8; 196608], n: usize) -> bool
    requires { IsPrefixLen n out.now }
{
    let Err(why) = rt.write_all(&out[..n]) else {
        return true;
    };
    if !matches!(why.kind(), ErrorKind::BrokenPipe) {
        let _ = eprintln!(rt; "step: the output cannot be written");
    }
    false
}
