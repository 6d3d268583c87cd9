// Replay on a position. `t` is the table of squares between, lent.
ghost use Rattle.std.specs.Prelude.{◌≡◌, ◌<◌};
ghost use Rattle.squares.specs.Tests.{◌and◌};
ghost use Rattle.geometry.specs.Lines.{IsBetween};
ghost use Rattle.laws.specs.declared.Side.TheVariants.{Short as short, Long as long};
ghost use Rattle.laws.specs.Men.{man_of};
ghost use Rattle.laws.specs.Positions.{rights_of, rights_for};
ghost use Rattle.laws.specs.Moves.{arriving};
ghost use Rattle.laws.specs.Moves as laws;
ghost use Rattle.laws.specs.Boards.{Clean, men_in, pos_at};
ghost use Rattle.position.specs.inner.Edits.{with_men};
ghost use Rattle.unmake.specs.inner.Parts.{Fits};
ghost use Rattle.replay.specs.Replayed.{replayed_for, replay_to};
ghost use Rattle.replay.specs.inner.Parts.{after_for, state_for, keeps_for, Goes};

use laws::{CastleRights, ChessRetraction, Color, EnPassantFlag, Position, Side, Way};
use position::Positioned;
use refusal::Refusal;

// The square that a move clears beside the one it leaves: the pawn taken en passant, the rook's corner.
fn cleared(p: Position, w: Way, c: Color, s: u8) -> Position
    requires { Clean p.pieces p.colors × (s < 64) × Fits w c s }
    ensures { result ≡ with_men p (laws.cleared w c s (men_in p)) }
{
    match w {
        Way::Plain => p,
        Way::Passant => position::inner::put_man(p, geometry::inner::behind(c, s), 0),
        Way::Castle(d) => position::inner::put_man(p, laws::inner::castling::rook_home(c, d), 0),
    }
}

// The square that it fills beside the one it comes to: that of the castled rook.
fn filled(p: Position, w: Way, c: Color) -> Position
    requires { Clean p.pieces p.colors }
    ensures { result ≡ with_men p (laws.filled w c (men_in p)) }
{
    match w {
        Way::Plain => p,
        Way::Passant => p,
        Way::Castle(d) => {
            let q = laws::inner::castling::rook_to(c, d);
            position::inner::put_man(p, q, position::inner::man_number(c, 4))
        }
    }
}

// The men after the move from t to s: x arrives.
fn after(p: Position, w: Way, c: Color, t: u8, s: u8, x: u8) -> Position
    requires { (Clean p.pieces p.colors × (t < 64) × (s < 64)) × ((x < 14) × Fits w c s) }
    ensures { result ≡ with_men p (after_for w c t s (man_of x) (men_in p)) }
{
    let taken = cleared(p, w, c, s);
    let left = position::inner::put_man(taken, t, 0);
    let ready = filled(left, w, c);
    position::inner::put_man(ready, s, x)
}

// The state after a move of the man numbered x: the pawn's square after a double step that the edition notes, else none.
pub fn state_after(p: Position, x: u8, t: u8, s: u8) -> EnPassantFlag
    requires { Clean p.pieces p.colors × (s < 64) × (x < 14) }
    ensures { result ≡ state_for p.terms.edition (men_in p) (man_of x) t s }
{
    let d = geometry::other(position::inner::color_of(x));
    let a = t / 8;
    let b = s / 8;
    let double = (a == b + 2) | (b == a + 2);
    let near = men::inner::is_noted(p, d, s);
    if position::inner::is_pawn(x) & double & near {
        return EnPassantFlag::Some(s);
    }
    EnPassantFlag::None
}

// The man that arrives: the kind numbered k where the move is marked.
fn arrives(mark: bool, x: u8, c: Color, k: u8) -> u8
    requires { (x < 14) × (k < 6) }
    ensures { (man_of result ≡ arriving mark (man_of x) c k) × (result < 14) }
{
    if mark {
        return position::inner::man_number(c, k);
    }
    x
}

// The right of a colour on a side survives a move from t to s.
fn keeps(t: u8, s: u8, c: Color, d: Side) -> bool
    ensures { result ≡ keeps_for t s c d }
{
    let home = laws::inner::castling::king_home(c);
    let corner = laws::inner::castling::rook_home(c, d);
    (t != home) & (t != corner) & (s != home) & (s != corner)
}

fn kept_rights(p: Position, t: u8, s: u8, c: Color) -> CastleRights
    ensures { result ≡ rights_for (rights_of p.white p.black c short and keeps_for t s c short) (rights_of p.white p.black c long and keeps_for t s c long) }
{
    let short = laws::inner::castling::has_right(p, c, Side::Short);
    let long = laws::inner::castling::has_right(p, c, Side::Long);
    let a = keeps(t, s, c, Side::Short);
    let b = keeps(t, s, c, Side::Long);
    laws::inner::castling::rights_for(short & a, long & b)
}

// The position after a move that is possible.
fn forward(p: Position, r: ChessRetraction, k: u8) -> Position
    requires { Goes p r k }
    ensures { result ≡ replayed_for (pos_at p) r k }
{
    let c = p.turn;
    let x = position::inner::man_at(p, r.target);
    let w = moves::inner::way_of(x, r.target, r.source, r.uncaptured);
    let z = arrives(r.unpromotion, x, c, k);
    let m = after(p, w, c, r.target, r.source, z);
    let state = state_after(p, x, r.target, r.source);
    let white = kept_rights(p, r.target, r.source, Color::White);
    let black = kept_rights(p, r.target, r.source, Color::Black);
    let turn = geometry::other(c);
    Position {
        turn: turn,
        white: white,
        black: black,
        passant: state,
        ..m
    }
}

// Replay after its tests 1 to 5 and 7: refusal 12, or the position after the move; k is the kind promoted to.
pub fn replay(t: &[u64; 4096], p: Position, r: ChessRetraction, k: u8) -> Positioned
    requires { IsBetween t.now × Clean p.pieces p.colors }
    ensures { result ≡ replay_to (pos_at p) r k }
{
    if !moves::inner::possible(t, p, r, k) {
        return position::inner::refuse(Refusal::Step);
    }
    let e = forward(p, r, k);
    Positioned {
        verdict: Ok(()),
        position: e,
    }
}
