// Refusals 9 to 12 in order, and un-make. `t` is the table of squares between, lent.
ghost use Rattle.std.specs.Prelude.{◌≡◌, ◌<◌, eqb};
ghost use Rattle.squares.specs.Tests.{◌and◌, ◌or◌};
ghost use Rattle.geometry.specs.Lines.{IsBetween};
ghost use Rattle.laws.specs.declared.Way.TheVariants.{Passant as passant};
ghost use Rattle.laws.specs.Men.{man_of};
ghost use Rattle.laws.specs.Positions.{rights_of, king_home, corner};
ghost use Rattle.laws.specs.Unmaking.{leaving, promoted_to};
ghost use Rattle.laws.specs.Boards.{Clean, men_in, pos_at};
ghost use Rattle.unmake.specs.Retracted.{source_for, target_for, held_for, stepped_to, unmade_to};
ghost use Rattle.unmake.specs.inner.Parts.{undoable_for, castled_for, rest_for};

use laws::{ChessRetraction, Color, Position, Side, Way};
use position::Positioned;
use refusal::Refusal;

pub mod back; // back.rt: how men, rights and state go back

// 9 SOURCE passes: a man of the retractor on the source.
pub fn source_ok(p: Position, r: ChessRetraction) -> bool
    ensures { result ≡ source_for (pos_at p) r }
{
    let turn = p.turn;
    let c = geometry::other(turn);
    (r.source < 64) & position::inner::is_of(c, position::inner::man_at(p, r.source))
}

// 10 TARGET passes: nothing on the target.
pub fn target_ok(p: Position, r: ChessRetraction) -> bool
    ensures { result ≡ target_for (pos_at p) r }
{
    (r.target < 64) & (position::inner::man_at(p, r.target) == 0)
}

// A side's right holds the king on its home and the rook in its corner.
fn holds_at(p: Position, c: Color, d: Side, s: u8) -> bool
    ensures { result ≡ (rights_of p.white p.black c d and (eqb s (king_home c) or eqb s (corner c d))) }
{
    let held = laws::inner::castling::has_right(p, c, d);
    let king = laws::inner::castling::king_home(c);
    let rook = laws::inner::castling::rook_home(c, d);
    held & ((s == king) | (s == rook))
}

// 11 HELD: the retractor's king while it has a right, or a corner rook that a right covers.
pub fn is_held(p: Position, r: ChessRetraction) -> bool
    ensures { result ≡ held_for (pos_at p) r }
{
    let turn = p.turn;
    let c = geometry::other(turn);
    let short = holds_at(p, c, Side::Short, r.source);
    let long = holds_at(p, c, Side::Long, r.source);
    short | long
}

// Un-en-passant: to the sixth rank, the squares before and behind the source being empty.
fn crossed(p: Position, c: Color, s: u8) -> bool
    requires { s < 64 }
    ensures { result ≡ undoable_for passant c s (men_in p) }
{
    if geometry::inner::rank_for(c, s) != 5 {
        return false;
    }
    let d = geometry::other(c);
    let one = geometry::inner::behind(c, s);
    let two = geometry::inner::behind(d, s);
    (position::inner::man_at(p, one) == 0) & (position::inner::man_at(p, two) == 0)
}

// The rook stands where it castled to, and nothing in its corner.
fn castled(p: Position, c: Color, d: Side) -> bool
    ensures { result ≡ castled_for (men_in p) c d }
{
    let x = position::inner::man_at(p, laws::inner::castling::rook_to(c, d));
    let y = position::inner::man_at(p, laws::inner::castling::rook_home(c, d));
    (x == position::inner::man_number(c, 4)) & (y == 0)
}

// What must stand today on the squares that un-make overwrites beside source and target.
fn undoable(p: Position, w: Way, c: Color, s: u8) -> bool
    requires { s < 64 }
    ensures { result ≡ undoable_for w c s (men_in p) }
{
    match w {
        Way::Plain => true,
        Way::Passant => crossed(p, c, s),
        Way::Castle(d) => castled(p, c, d),
    }
}

// The rest of 12, of the un-made position e; k is the kind promoted to.
fn rest_ok(t: &[u64; 4096], e: Position, c: Color, r: ChessRetraction, k: u8) -> bool
    requires { (IsBetween t.now × Clean e.pieces e.colors) × (r.uncaptured < 6) }
    ensures { result ≡ rest_for c (pos_at e) r k }
{
    let x = position::inner::man_at(e, r.target);
    let pawn = position::inner::is_pawn(x);
    let taken = (r.uncaptured == 1) & (r.source / 8 % 7 == 0);
    let moved = pawn & (r.target / 8 % 7 == 0);
    !taken & !moved & moves::inner::possible(t, e, r, k)
}

// The man that left the target, by the man numbered y on the source.
fn left_by(mark: bool, c: Color, y: u8) -> u8
    requires { y < 14 }
    ensures { (man_of result ≡ leaving mark c (man_of y)) × (result < 14) }
{
    if mark {
        return position::inner::man_number(c, 1);
    }
    y
}

fn promoted_to(mark: bool, y: u8) -> u8
    requires { y < 14 }
    ensures { result ≡ promoted_to mark (man_of y) }
{
    if mark {
        return y / 2;
    }
    0
}

// 12 STEP, or the earlier position: first what stands today beside the squares, then the step on the un-made men.
fn stepped(t: &[u64; 4096], p: Position, r: ChessRetraction) -> Positioned
    requires { (IsBetween t.now × Clean p.pieces p.colors) × ((r.source < 64) × (r.target < 64)) }
    ensures { result ≡ stepped_to (pos_at p) r }
{
    if r.uncaptured > 5 {
        return position::inner::refuse(Refusal::Step);
    }
    let turn = p.turn;
    let c = geometry::other(turn);
    let y = position::inner::man_at(p, r.source);
    let x = left_by(r.unpromotion, c, y);
    let w = moves::inner::way_of(x, r.target, r.source, r.uncaptured);
    if !undoable(p, w, c, r.source) {
        return position::inner::refuse(Refusal::Step);
    }
    let e = back::unmade(p, r, w, c, x);
    let k = promoted_to(r.unpromotion, y);
    if !rest_ok(t, e, c, r, k) {
        return position::inner::refuse(Refusal::Step);
    }
    Positioned {
        verdict: Ok(()),
        position: e,
    }
}

// Un-make: 9 to 12 in order, then the earlier position.
pub fn unmake(t: &[u64; 4096], p: Position, r: ChessRetraction) -> Positioned
    requires { IsBetween t.now × Clean p.pieces p.colors }
    ensures { result ≡ unmade_to (pos_at p) r }
{
    if !source_ok(p, r) {
        return position::inner::refuse(Refusal::Source);
    }
    if !target_ok(p, r) {
        return position::inner::refuse(Refusal::Target);
    }
    if is_held(p, r) {
        return position::inner::refuse(Refusal::Held);
    }
    stepped(t, p, r)
}
