// The strict test of one retraction on an accepted position. `t` is the table of squares between, lent.
ghost use Rattle.std.specs.Prelude.{◌≡◌, true, not};
ghost use Rattle.squares.specs.Tests.{◌and◌};
ghost use Rattle.geometry.specs.Colors.{opp};
ghost use Rattle.geometry.specs.Lines.{IsBetween};
ghost use Rattle.laws.specs.Attacks.{attacked};
ghost use Rattle.laws.specs.Acceptance.{kings_ok, state_ok};
ghost use Rattle.laws.specs.Souls.{souls_ok};
ghost use Rattle.laws.specs.Positions.{king_home, rook_to};
ghost use Rattle.laws.specs.Boards.{Clean, men_in, pos_at};
ghost use Rattle.strict_test.specs.inner.Strictly.{counts_for, safe_for, none_for, agrees_for, earlier_for, strict_for, Today, Earlier};

use laws::{ChessRetraction, Color, EnPassantFlag, Position, Side, Way};

pub mod coming; // coming.rt: which squares a man can have come from

// Souls at most 8 a side: un-promotion can make the retractor's nine, un-en-passant the other side's.
fn few_souls(e: Position) -> bool
    requires { Clean e.pieces e.colors }
    ensures { result ≡ souls_ok (men_in e) }
{
    let pieces = e.pieces;
    let colors = e.colors;
    let c = e.turn;
    let d = geometry::other(c);
    let mine = souls::inner::souls(pieces, colors, c);
    let theirs = souls::inner::souls(pieces, colors, d);
    (mine <= 8) & (theirs <= 8)
}

// What an earlier position must have to count: few souls, and a double step that was possible where it names one.
fn counts(e: Position) -> bool
    requires { Clean e.pieces e.colors × (kings_ok (men_in e) ≡ true) × (state_ok e.terms.edition (men_in e) e.turn e.passant ≡ true) }
    ensures { result ≡ counts_for (pos_at e) }
{
    few_souls(e) & double_step::inner::could_step(e)
}

// Neither the king's home nor the square that it crosses, the rook's new one, is attacked.
fn unattacked(e: Position, c: Color, d: Side) -> bool
    requires { Clean e.pieces e.colors }
    ensures { result ≡ (not (attacked (men_in e) (opp c) (king_home c)) and not (attacked (men_in e) (opp c) (rook_to c d))) }
{
    let pieces = e.pieces;
    let colors = e.colors;
    let enemy = geometry::other(c);
    let king = laws::inner::castling::king_home(c);
    let rook = laws::inner::castling::rook_to(c, d);
    let out = attacks::inner::is_attacked(pieces, colors, king, enemy);
    let through = attacks::inner::is_attacked(pieces, colors, rook, enemy);
    !out & !through
}

// No castling out of or through attack.
fn is_safe(e: Position, w: Way, c: Color) -> bool
    requires { Clean e.pieces e.colors }
    ensures { result ≡ safe_for (men_in e) w c }
{
    match w {
        Way::Plain => true,
        Way::Passant => true,
        Way::Castle(d) => unattacked(e, c, d),
    }
}

fn is_none(state: EnPassantFlag) -> bool
    ensures { result ≡ none_for state }
{
    match state {
        EnPassantFlag::Any => false,
        EnPassantFlag::Some(_) => false,
        EnPassantFlag::None => true,
    }
}

// Today's state, unless unknown, is the one after the move.
fn agrees(today: EnPassantFlag, after: EnPassantFlag) -> bool
    ensures { result ≡ agrees_for today after }
{
    match today {
        EnPassantFlag::Any => true,
        EnPassantFlag::Some(q) => moves::inner::is_named(after, q),
        EnPassantFlag::None => is_none(after),
    }
}

// What the earlier position is asked beside un-make's own tests; refusals 2 to 5 never fail on it. The dear tests come last.
fn earlier_ok(e: Position, r: ChessRetraction, today: EnPassantFlag) -> bool
    requires { Earlier e r }
    ensures { result ≡ earlier_for (pos_at e) r today }
{
    if !counts(e) {
        return false;
    }
    let x = position::inner::man_at(e, r.target);
    let after = replay::inner::state_after(e, x, r.target, r.source);
    if !agrees(today, after) {
        return false;
    }
    let c = e.turn;
    let w = moves::inner::way_of(x, r.target, r.source, r.uncaptured);
    if !is_safe(e, w, c) {
        return false;
    }
    let pieces = e.pieces;
    let colors = e.colors;
    !pins::inner::bad_check(pieces, colors, c)
}

// The strict test.
pub fn is_strict(t: &[u64; 4096], p: Position, r: ChessRetraction) -> bool
    requires { IsBetween t.now × Today p }
    ensures { result ≡ strict_for (pos_at p) r }
{
    let u = unmake::inner::unmake(t, p, r);
    let v = u.verdict;
    match v {
        Err(_) => false,
        Ok(()) => {
            let e = u.position;
            let today = p.passant;
            earlier_ok(e, r, today)
        }
    }
}
