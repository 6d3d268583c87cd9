// One press of the stepping screen. `t` is the table of squares between, lent.
ghost use Rattle.std.specs.Prelude.{◌≡◌, cond};
ghost use Rattle.geometry.specs.Lines.{IsBetween};
ghost use Rattle.laws.specs.Retractions.{InRange};
ghost use Rattle.reply.specs.Replies.{Shows};
ghost use Rattle.screen.specs.Screens.{board_before, retraction_text, end_text, one_more, Shown, ShownBy};

use super::{Pressed, Screen};
use board::RetractableBoard;
use laws::ChessRetraction;
use retraction_gen::RetractionGen;

// The board before a retraction; today's where un-make refuses it.
fn before(t: &[u64; 4096], b: RetractableBoard, r: ChessRetraction) -> RetractableBoard
    requires { IsBetween t.now }
    ensures { result ≡ board_before b r }
{
    let v = board::inner::moving::unmake_gate(t, b, r);
    match v {
        Ok(()) => board::inner::moving::unmade(t, b, r),
        Err(_) => b,
    }
}

fn put_retraction(
    t: &[u64; 4096],
    b: RetractableBoard,
    n: u64,
    r: ChessRetraction,
    strict: bool,
    out: &mut [u8; 196608],
) -> usize
    requires { IsBetween t.now }
    ensures { Shows (retraction_text b n r strict) result out.old out.new }
{
    let a = words::inner::put(out, 0, b"\n");
    let w = words::inner::put_words(out, a, n, b, r, strict);
    let earlier = before(t, b, r);
    diagram::inner::put_board(out, w, earlier, r.target, r.source)
}

fn put_end(listed: u64, strict: u64, all: u64, out: &mut [u8; 196608]) -> usize
    ensures { Shows (end_text listed strict all) result out.old out.new }
{
    let a = words::inner::put_counted(out, 0, b"\nThe end: ", listed);
    let b = words::inner::put_counted(out, a, b" listed, ", strict);
    let c = words::inner::put_counted(out, b, b" of them strict; the strict list has ", all);
    words::inner::put(out, c, b".\n")
}

// One more, as far as 64 bits count.
fn one_more(n: u64) -> u64
    ensures { result ≡ one_more n }
{
    if n < u64::MAX { n + 1 } else { n }
}

// One more where it is so.
fn one_more_if(n: u64, so: bool) -> u64
    ensures { result ≡ cond so (one_more n) n }
{
    if so { one_more(n) } else { n }
}

// The screen after a retraction, which is shown.
fn shown(
    t: &[u64; 4096],
    s: Screen,
    cursor: RetractionGen,
    r: ChessRetraction,
    strict: &[u16],
    out: &mut [u8; 196608],
) -> Pressed
    requires { IsBetween t.now × InRange r }
    ensures { ShownBy s cursor (Some r) strict.now result out.old out.new }
{
    let board = s.board;
    let listed = one_more(s.listed);
    let is_strict = rows::inner::contains(strict, laws::inner::pack(r));
    let size = put_retraction(t, board, listed, r, is_strict, out);
    Pressed {
        screen: Screen {
            board,
            cursor,
            listed,
            strict: one_more_if(s.strict, is_strict),
        },
        next: Some(r),
        size,
    }
}

// The screen at the end, which is shown.
fn ended(s: Screen, cursor: RetractionGen, strict: &[u16], out: &mut [u8; 196608]) -> Pressed
    ensures { ShownBy s cursor None strict.now result out.old out.new }
{
    let size = put_end(s.listed, s.strict, strict.len() as u64, out);
    Pressed {
        screen: Screen { cursor, ..s },
        next: None,
        size,
    }
}

// The cursor pressed, and what it yields shown.
pub fn press(t: &[u64; 4096], s: Screen, strict: &[u16], out: &mut [u8; 196608]) -> Pressed
    requires { IsBetween t.now }
    ensures { Shown s strict.now result out.old out.new }
{
    let g = s.cursor;
    let p = stepping::pressed(g);
    let cursor = p.cursor;
    let next = p.next;
    match next {
        Some(r) => shown(t, s, cursor, r, strict, out),
        None => ended(s, cursor, strict, out),
    }
}
