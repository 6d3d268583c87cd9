// The cursor of a board, its start, and one turn of it: what a call of the Rust's `next` does before it answers or calls itself.
ghost use Rattle.std.specs.Prelude.{◌≡◌, ◌<◌};
ghost use Rattle.geometry.specs.Lines.{IsBetween};
ghost use Rattle.retraction_list.specs.inner.Pushing.{answer_of};
ghost use Rattle.refusal.specs.Refusals.{nothing_refused};
ghost use Rattle.board.specs.Gate.{gate_of};
ghost use Rattle.retraction_gen.specs.Making.{view_on, list_on, start_of, full_test, cursor_on, Makes};
ghost use Rattle.retraction_gen.specs.declared.Turn.TheVariants.{Again, Found};
ghost use Rattle.retraction_gen.specs.Cursors.{turned, entry_at, spent, is_un_en_passant, against, barred, turn_in, on_entry, turn_of, well_formed};

use super::{RetractionGen, Turn, Turned};
use board::RetractableBoard;
use laws::ChessRetraction;
use refusal::Refusal;
use retraction_list::{RetractionList, UnCaptureKind};
use view::View;

// What the lists see of a board.
pub fn seen(b: RetractableBoard) -> View
    ensures { result ≡ view_on b }
{
    view::inner::look(
        board::inner::position_of(b),
        b.combined,
        b.pinned,
        b.checkers,
    )
}

// A cursor at its start.
pub fn started(list: RetractionList, masks: [u64; 6]) -> RetractionGen
    ensures { result ≡ start_of list masks }
{
    let entries = list.entries;
    RetractionGen {
        entries,
        len: list.len,
        index: 0,
        uncaptured: 0,
        masks,
    }
}

// The list of a board that its gate let pass, or FULL. `t` is the table of squares between, lent.
pub fn entries(t: &[u64; 4096], b: RetractableBoard) -> RetractionList
    requires { IsBetween t.now × (gate_of b ≡ nothing_refused) }
    ensures { result ≡ answer_of (list_on b) }
{
    let v = seen(b);
    enumerate::inner::enumerate(t, v)
}

// The cursor of a board that its gate let pass, or FULL.
pub fn made_from(t: &[u64; 4096], b: RetractableBoard) -> Result<RetractionGen, Refusal>
    requires { IsBetween t.now × (gate_of b ≡ nothing_refused) }
    ensures { Makes (full_test (list_on b)) (cursor_on b) result }
{
    let list = entries(t, b);
    if list.full {
        return Err(Refusal::Full);
    }
    let masks = uncaptured::inner::candidates(board::inner::position_of(b));
    Ok(started(list, masks))
}

pub fn is_un_en_passant(k: UnCaptureKind) -> bool
    ensures { result ≡ is_un_en_passant k }
{
    match k {
        UnCaptureKind::Optional => false,
        UnCaptureKind::Necessary => false,
        UnCaptureKind::Forbidden => false,
        UnCaptureKind::UnEnPassant => true,
    }
}

fn is_against(k: UnCaptureKind, u: u8) -> bool
    ensures { result ≡ against k u }
{
    match k {
        UnCaptureKind::Optional => false,
        UnCaptureKind::Necessary => u == 0,
        UnCaptureKind::Forbidden => u != 0,
        UnCaptureKind::UnEnPassant => false,
    }
}

fn is_barred(mask: u64, source: u8, k: UnCaptureKind, u: u8) -> bool
    ensures { result ≡ barred mask source k u }
{
    !squares::has(mask, source) | is_against(k, u)
}

// The entry in work without its lowest target.
fn spend(g: RetractionGen) -> RetractionGen
    requires { g.index < 47 }
    ensures { result ≡ spent g }
{
    let i = g.index;
    let t = g.entries[i].targets;
    let rest = squares::without(t, squares::lowest(t));
    let mut out = g;
    out.entries[i].targets = rest;
    out
}

fn found(cursor: RetractionGen, r: ChessRetraction) -> Turned
    ensures { result ≡ turned cursor (Found r) }
{
    Turned {
        cursor,
        turn: Turn::Found(r),
    }
}

fn again(cursor: RetractionGen) -> Turned
    ensures { result ≡ turned cursor Again }
{
    Turned {
        cursor,
        turn: Turn::Again,
    }
}

fn turn_in(g: RetractionGen) -> Turned
    requires { g.index < 47 }
    ensures { result ≡ turn_in g (entry_at g) }
{
    let i = g.index;
    let e = g.entries[i];
    let k = e.kind;
    let target = squares::lowest(e.targets);
    if is_un_en_passant(k) {
        let r = ChessRetraction {
            source: e.source,
            target,
            uncaptured: 0,
            unpromotion: false,
        };
        return found(spend(g), r);
    }
    let u = g.uncaptured;
    if u >= 6 {
        let mut g2 = spend(g);
        g2.uncaptured = 0;
        return again(g2);
    }
    let mut g2 = g;
    g2.uncaptured = u + 1;
    if is_barred(g.masks[u as usize], e.source, k, u) {
        return again(g2);
    }
    let r = ChessRetraction {
        source: e.source,
        target,
        uncaptured: u,
        unpromotion: e.unpromotion,
    };
    found(g2, r)
}

fn on_entry(g: RetractionGen) -> bool
    ensures { result ≡ on_entry g }
{
    (g.index < g.len) & (g.index < 47)
}

// A turn that goes on, finds a retraction or is at the end.
pub fn one_turn(g: RetractionGen) -> Turned
    ensures { result ≡ turn_of g }
{
    if !on_entry(g) {
        return Turned {
            cursor: g,
            turn: Turn::Over,
        };
    }
    let i = g.index;
    let targets = g.entries[i].targets;
    if squares::lowest(targets) > 63 {
        let mut g2 = g;
        g2.index = i + 1;
        return again(g2);
    }
    turn_in(g)
}

// At most 47 entries, and every source a square.
pub fn well_formed(g: RetractionGen) -> bool
    ensures { result ≡ well_formed g }
{
    let len = g.len;
    if len > 47 {
        return false;
    }
    for i in 0..len {
        if g.entries[i].source > 63 {
            return false;
        }
    }
    true
}
