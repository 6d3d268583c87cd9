// The plies of a history: White's asks Black's and Black's asks White's, the depth falling each time. `t` is the table of squares between, lent.
ghost use Rattle.std.specs.Prelude.{◌≡◌, []};
ghost use Rattle.geometry.specs.declared.Color.TheVariants.{White, Black};
ghost use Rattle.geometry.specs.Lines.{IsBetween};
ghost use Rattle.refusal.specs.Refusals.{nothing_refused};
ghost use Rattle.board.specs.Gate.{gate_of};
ghost use Rattle.board.specs.Moving.{unmade_on};
ghost use Rattle.strict.specs.Demand.{Past};
ghost use Rattle.history.specs.Histories.{history_of, after_move, no_move, Tells};

use super::History;
use board::RetractableBoard;
use laws::{ChessRetraction, Color};

fn no_move() -> ChessRetraction
    ensures { result ≡ no_move }
{
    ChessRetraction {
        source: 0,
        target: 0,
        uncaptured: 0,
        unpromotion: false,
    }
}

// The history of no ply.
fn no_plies() -> History
    ensures { result ≡ history_of [] }
{
    let r = no_move();
    History {
        first: r,
        second: r,
        third: r,
        fourth: r,
    }
}

// A history with one later ply.
fn after_move(r: ChessRetraction, h: History) -> History
    ensures { result ≡ after_move r h }
{
    let second = h.first;
    let third = h.second;
    let fourth = h.third;
    History {
        first: r,
        second,
        third,
        fourth,
    }
}

// The board before a retraction that has a past.
fn earlier(t: &[u64; 4096], b: RetractableBoard, r: ChessRetraction) -> RetractableBoard
    requires { IsBetween t.now × (gate_of b ≡ nothing_refused) × Past b r }
    ensures { result ≡ unmade_on b r }
{
    board::inner::moving::unmade(t, b, r)
}

// Two functions and no cycle of one by the side, since the request has White's ply ask Black's and Black's White's.

// White has moved last: the first of its strict retractions before which Black has one ply less. An accepted board is refused no step.
#[cycle(black_ply_white_ply)]
fn white_ply(t: &[u64; 4096], b: RetractableBoard, depth: u8) -> Option<History>
    requires { IsBetween t.now × (gate_of b ≡ nothing_refused) × (b.turn ≡ Black) }
    ensures { Tells depth b result }
{
    if depth == 0 {
        return Some(no_plies());
    }
    let mut at: usize = 0;
    while let Ok(Some(x)) = strict::inner::strict_from(t, b, at) {
        let r = x.retraction;
        if let Some(l) = black_ply(t, earlier(t, b, r), depth - 1) {
            return Some(after_move(r, l));
        }
        at = x.place + 1;
    }
    None
}

// Black has moved last.
#[cycle(black_ply_white_ply)]
fn black_ply(t: &[u64; 4096], b: RetractableBoard, depth: u8) -> Option<History>
    requires { IsBetween t.now × (gate_of b ≡ nothing_refused) × (b.turn ≡ White) }
    ensures { Tells depth b result }
{
    if depth == 0 {
        return Some(no_plies());
    }
    let mut at: usize = 0;
    while let Ok(Some(x)) = strict::inner::strict_from(t, b, at) {
        let r = x.retraction;
        if let Some(l) = white_ply(t, earlier(t, b, r), depth - 1) {
            return Some(after_move(r, l));
        }
        at = x.place + 1;
    }
    None
}

// The ply of the side that has moved last.
pub(super) fn last_ply(t: &[u64; 4096], b: RetractableBoard, depth: u8) -> Option<History>
    requires { IsBetween t.now × (gate_of b ≡ nothing_refused) }
    ensures { Tells depth b result }
{
    let turn = b.turn;
    match turn {
        Color::White => black_ply(t, b, depth),
        Color::Black => white_ply(t, b, depth),
    }
}
