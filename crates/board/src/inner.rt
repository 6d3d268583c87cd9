// The gate, what stands beside its verdict, and a board from raw men, over a lent table of squares between.
ghost use Rattle.std.specs.Prelude.{◌≡◌, not};
ghost use Rattle.geometry.specs.Lines.{IsBetween};
ghost use Rattle.board.specs.Gate.{to_laws, position_on, fresh_on, stale_after, gate_of, kept_by, boarded_by};
ghost use Rattle.board.specs.inner.Gates.{Sound, Kept, new_of, ask_gate, state_gate, earlier_of};
ghost use Rattle.board.specs.Answers.{worked_of};

use super::{Boarded, RetractableBoard};
use laws::{Board, EnPassantFlag, Position};
use refusal::{Refusal, Verdict};

pub mod moving; // moving.rt: un-make and replay of a board

// The board where nothing is refused, else the empty one.
pub fn kept(v: Verdict, b: RetractableBoard) -> RetractableBoard
    ensures { result ≡ kept_by v b }
{
    match v {
        Ok(()) => b,
        Err(_) => super::no_board(),
    }
}

// The same beside the verdict.
pub fn board_by(v: Verdict, b: RetractableBoard) -> Boarded
    ensures { result ≡ boarded_by v b }
{
    let board = kept(v, b);
    Boarded { verdict: v, board }
}

// The board as the Laws' board of the same fields.
pub(super) fn to_laws(b: RetractableBoard) -> Board
    ensures { result ≡ to_laws b }
{
    let pieces = b.pieces;
    let colors = b.colors;
    let turn = b.turn;
    let white = b.white;
    let black = b.black;
    let passant = b.passant;
    let terms = b.terms;
    Board {
        pieces,
        colors,
        combined: b.combined,
        turn,
        white,
        black,
        pinned: b.pinned,
        checkers: b.checkers,
        passant,
        terms,
    }
}

// And back.
fn from_laws(b: Board) -> RetractableBoard
    ensures { to_laws result ≡ b }
{
    let pieces = b.pieces;
    let colors = b.colors;
    let turn = b.turn;
    let white = b.white;
    let black = b.black;
    let passant = b.passant;
    let terms = b.terms;
    RetractableBoard {
        pieces,
        colors,
        combined: b.combined,
        turn,
        white,
        black,
        pinned: b.pinned,
        checkers: b.checkers,
        passant,
        terms,
    }
}

// A board's fields without the worked-out ones.
pub fn position_of(b: RetractableBoard) -> Position
    ensures { result ≡ position_on b }
{
    let pieces = b.pieces;
    let colors = b.colors;
    let turn = b.turn;
    let white = b.white;
    let black = b.black;
    let passant = b.passant;
    let terms = b.terms;
    Position {
        pieces,
        colors,
        turn,
        white,
        black,
        passant,
        terms,
    }
}

// 7 STALE
fn stale(t: &[u64; 4096], b: RetractableBoard) -> bool
    requires { IsBetween t.now × Sound (position_on b) }
    ensures { result ≡ not (fresh_on b) }
{
    let pieces = b.pieces;
    let colors = b.colors;
    let turn = b.turn;
    let men = men::inner::occupied(pieces, colors);
    let checks = pins::inner::checkers(pieces, colors, turn);
    let pins = pins::inner::pins(t, pieces, colors, turn);
    !((b.combined == men) & (b.checkers == checks) & (b.pinned == pins))
}

// What is refused already, else 7.
fn stale_after(t: &[u64; 4096], v: Verdict, b: RetractableBoard) -> Verdict
    requires { IsBetween t.now × Kept v (position_on b) }
    ensures { result ≡ stale_after v b }
{
    v?;
    if stale(t, b) {
        return Err(Refusal::Stale);
    }
    Ok(())
}

// Refusals 1 to 7.
pub fn gate(t: &[u64; 4096], b: RetractableBoard) -> Verdict
    requires { IsBetween t.now }
    ensures { result ≡ gate_of b }
{
    stale_after(t, accept::inner::judge(position_of(b)), b)
}

// Refusals 1 to 7, then 9 for a square asked about.
pub fn ask_gate(t: &[u64; 4096], b: RetractableBoard, sq: u8) -> Verdict
    requires { IsBetween t.now }
    ensures { result ≡ ask_gate b sq }
{
    gate(t, b)?;
    if sq > 63 {
        return Err(Refusal::Source);
    }
    Ok(())
}

// Refusals 1 to 7, then 5 for another state.
pub fn state_gate(t: &[u64; 4096], b: RetractableBoard, passant: EnPassantFlag) -> Verdict
    requires { IsBetween t.now }
    ensures { result ≡ state_gate b passant }
{
    gate(t, b)?;
    let p = Position {
        passant,
        ..position_of(b)
    };
    if accept::inner::refusals::bad_passant(p) {
        return Err(Refusal::Passant);
    }
    Ok(())
}

// A position's board: union, checkers and pins worked out.
fn worked(t: &[u64; 4096], p: Position) -> RetractableBoard
    requires { IsBetween t.now × Sound p }
    ensures { result ≡ worked_of p }
{
    let pieces = p.pieces;
    let colors = p.colors;
    let turn = p.turn;
    let white = p.white;
    let black = p.black;
    let passant = p.passant;
    let terms = p.terms;
    let combined = men::inner::occupied(pieces, colors);
    let checkers = pins::inner::checkers(pieces, colors, turn);
    let pinned = pins::inner::pins(t, pieces, colors, turn);
    RetractableBoard {
        pieces,
        colors,
        combined,
        turn,
        white,
        black,
        pinned,
        checkers,
        passant,
        terms,
    }
}

// What is refused already, else the board worked out.
fn worked_after(t: &[u64; 4096], v: Verdict, p: Position) -> Boarded
    requires { IsBetween t.now × Kept v p }
    ensures { result ≡ boarded_by v (worked_of p) }
{
    match v {
        Err(r) => board_by(Err(r), super::no_board()),
        Ok(()) => {
            let b = worked(t, p);
            board_by(Ok(()), b)
        }
    }
}

// A board from raw men: refusals 1 to 6.
pub fn board_from(t: &[u64; 4096], p: Position) -> Boarded
    requires { IsBetween t.now }
    ensures { result ≡ new_of p }
{
    let v = accept::inner::judge(p);
    worked_after(t, v, p)
}

// A board that replay takes, from raw men: refusals 1 to 5.
pub fn earlier_from(t: &[u64; 4096], p: Position) -> Boarded
    requires { IsBetween t.now }
    ensures { result ≡ earlier_of p }
{
    let v = accept::inner::five(p);
    worked_after(t, v, p)
}
