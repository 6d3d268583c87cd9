// The step of 12 on a position. `t` is the table of squares between, lent.
ghost use Rattle.std.specs.Prelude.{◌≡◌, ◌<◌, eqb};
ghost use Rattle.squares.specs.Tests.{◌and◌, ◌or◌};
ghost use Rattle.geometry.specs.Colors.{behind};
ghost use Rattle.geometry.specs.Lines.{IsBetween, clear};
ghost use Rattle.geometry.specs.Steps.{pawn_takes, slide_line};
ghost use Rattle.laws.specs.declared.Piece.TheVariants.{Pawn};
ghost use Rattle.laws.specs.Men.{man, man_of, bare};
ghost use Rattle.laws.specs.Positions.{rights_of, king_home, corner};
ghost use Rattle.laws.specs.Moves.{is_named, mark_ok};
ghost use Rattle.laws.specs.Boards.{Clean, men_in, pos_at};
ghost use Rattle.moves.specs.Stepping.{possible_for};
ghost use Rattle.moves.specs.inner.Parts.{way_by, way_for, moves_for, goes_for, Stands};

use laws::{ChessRetraction, Color, EnPassantFlag, Position, Side, Way};

fn way_by(pawn: bool, king: bool, cross: bool, home: bool, near: bool, far: bool) -> Way
    ensures { result ≡ way_by pawn king cross home near far }
{
    if pawn {
        if cross {
            return Way::Passant;
        }
        return Way::Plain;
    }
    if king & home {
        if near {
            return Way::Castle(Side::Short);
        }
        if far {
            return Way::Castle(Side::Long);
        }
    }
    Way::Plain
}

// The way of the man numbered x from one square to another, taking the man numbered u.
pub fn way_of(x: u8, from: u8, to: u8, u: u8) -> Way
    requires { x < 14 }
    ensures { result ≡ way_for (man_of x) from to u }
{
    let c = position::inner::color_of(x);
    let k = x / 2;
    let cross = (u == 0) & (from % 8 != to % 8);
    way_by(
        k == 1,
        k == 6,
        cross,
        from == laws::inner::castling::king_home(c),
        to == laws::inner::castling::king_to(c, Side::Short),
        to == laws::inner::castling::king_to(c, Side::Long),
    )
}

// No man stands between two squares.
fn is_free(t: &[u64; 4096], p: Position, from: u8, to: u8) -> bool
    requires { (IsBetween t.now × Clean p.pieces p.colors) × ((from < 64) × (to < 64)) }
    ensures { result ≡ clear (bare (men_in p)) from to }
{
    let pieces = p.pieces;
    let colors = p.colors;
    let occ = men::inner::occupied(pieces, colors);
    tables::inner::is_clear(t, occ, from, to)
}

// A pawn's step, taking the man numbered u, or none.
fn pawn_moves(t: &[u64; 4096], p: Position, c: Color, from: u8, to: u8, u: u8) -> bool
    requires { (IsBetween t.now × Clean p.pieces p.colors) × ((from < 64) × (to < 64)) }
    ensures { result ≡ moves_for (men_in p) (man c Pawn) from to u }
{
    if u != 0 {
        return squares::has(steps::inner::get_pawn_attacks(c, from), to);
    }
    let one = squares::has(steps::inner::pawn_step(c, from), to);
    let two = squares::has(steps::inner::pawn_double(c, from), to);
    let path = is_free(t, p, from, to);
    one | (two & path)
}

// The step of a bishop, a rook or a queen, by the kind's number.
fn slides_to(t: &[u64; 4096], p: Position, k: u8, from: u8, to: u8) -> bool
    requires { (IsBetween t.now × Clean p.pieces p.colors) × ((from < 64) × (to < 64)) }
    ensures { result ≡ (slide_line (eqb k 4 or eqb k 5) (eqb k 3 or eqb k 5) from to and clear (bare (men_in p)) from to) }
{
    let on = sliding::inner::lines::on_line((k == 4) | (k == 5), (k == 3) | (k == 5), from, to);
    let path = is_free(t, p, from, to);
    on & path
}

// The step of the man numbered x, taking the man numbered u, or none.
pub fn man_moves(t: &[u64; 4096], p: Position, x: u8, from: u8, to: u8, u: u8) -> bool
    requires { (IsBetween t.now × Clean p.pieces p.colors) × ((from < 64) × (to < 64) × (x < 14)) }
    ensures { result ≡ moves_for (men_in p) (man_of x) from to u }
{
    let c = position::inner::color_of(x);
    let k = x / 2;
    if k == 1 {
        return pawn_moves(t, p, c, from, to, u);
    }
    if k == 2 {
        return squares::has(steps::inner::get_knight_moves(from), to);
    }
    if k == 6 {
        return squares::has(steps::inner::get_king_moves(from), to);
    }
    slides_to(t, p, k, from, to)
}

pub fn is_named(state: EnPassantFlag, sq: u8) -> bool
    ensures { result ≡ is_named state sq }
{
    match state {
        EnPassantFlag::Any => false,
        EnPassantFlag::Some(q) => q == sq,
        EnPassantFlag::None => false,
    }
}

// En passant, only where its square is named.
fn takes_passant(p: Position, from: u8, to: u8) -> bool
    requires { (from < 64) × (to < 64) }
    ensures { result ≡ (pawn_takes p.turn from to and is_named p.passant (behind p.turn to)) }
{
    let c = p.turn;
    if !squares::has(steps::inner::get_pawn_attacks(c, from), to) {
        return false;
    }
    let state = p.passant;
    is_named(state, geometry::inner::behind(c, to))
}

// Castling on a side: with the right, and nothing between king and rook.
fn castles(t: &[u64; 4096], p: Position, d: Side, u: u8) -> bool
    requires { IsBetween t.now × Clean p.pieces p.colors }
    ensures { result ≡ (eqb u 0 and rights_of p.white p.black p.turn d and clear (bare (men_in p)) (king_home p.turn) (corner p.turn d)) }
{
    let c = p.turn;
    let held = laws::inner::castling::has_right(p, c, d);
    let king = laws::inner::castling::king_home(c);
    let rook = laws::inner::castling::rook_home(c, d);
    let path = is_free(t, p, king, rook);
    (u == 0) & held & path
}

// The step by its way; x is the number of the man that goes.
fn goes(t: &[u64; 4096], p: Position, w: Way, x: u8, from: u8, to: u8, u: u8) -> bool
    requires { (IsBetween t.now × Clean p.pieces p.colors) × Stands p x from to }
    ensures { result ≡ goes_for (pos_at p) w from to u }
{
    match w {
        Way::Plain => man_moves(t, p, x, from, to, u),
        Way::Passant => takes_passant(p, from, to),
        Way::Castle(d) => castles(t, p, d, u),
    }
}

// The mark is there where a pawn steps to the last rank, and nowhere else; k is the kind promoted to.
fn mark_ok(x: u8, c: Color, to: u8, mark: bool, k: u8) -> bool
    requires { (x < 14) × (to < 64) }
    ensures { result ≡ mark_ok (man_of x) c to mark k }
{
    let last = position::inner::is_pawn(x) & (geometry::inner::rank_for(c, to) == 7);
    if mark {
        return last & (2 <= k) & (k <= 5);
    }
    !last & (k == 0)
}

// 12 forward: the side to move can make the move of r, promoting to the kind numbered k, checks ignored.
pub fn possible(t: &[u64; 4096], p: Position, r: ChessRetraction, k: u8) -> bool
    requires { IsBetween t.now × Clean p.pieces p.colors }
    ensures { result ≡ possible_for (pos_at p) r k }
{
    if (r.source > 63) | (r.target > 63) | (r.uncaptured > 5) {
        return false;
    }
    let c = p.turn;
    let x = position::inner::man_at(p, r.target);
    let y = position::inner::man_at(p, r.source);
    let v = position::inner::man_number(geometry::other(c), r.uncaptured);
    let w = way_of(x, r.target, r.source, r.uncaptured);
    let mine = position::inner::is_of(c, x);
    let fits = mark_ok(x, c, r.source, r.unpromotion, k);
    mine & (y == v) & fits & goes(t, p, w, x, r.target, r.source, r.uncaptured)
}
