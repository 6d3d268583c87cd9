// The king's steps and un-castling. `t` is the table of `tables::between_table`, lent.
ghost use Rattle.std.specs.Prelude.{◌≡◌, ◌<◌};
ghost use Rattle.retraction_list.specs.inner.Pushing.{pushed_all};
ghost use Rattle.view.specs.inner.Readiness.{Whole, Ready};
ghost use Rattle.kings.specs.Kings.{attacked_of, steps_of, stepped_of, safe_of, castled_of, short_of, long_of, uncastled_of, king_of};

use laws::Side;
use retraction_list::{RetractionList, UnCaptureKind};
use view::View;

// `is_attacked(board, sq, !retracting_color)`, by the one routine that finds attackers.
fn is_attacked(v: View, sq: u8) -> bool
    requires { Whole v × (sq < 64) }
    ensures { result ≡ attacked_of v sq }
{
    let pieces = v.pieces;
    let colors = v.colors;
    let color = v.color;
    attacks::inner::is_attacked(pieces, colors, sq, geometry::other(color))
}

// The king's steps back, onto the checker's ray if there is one.
fn steps(t: &[u64; 4096], v: View, n: u32) -> u64
    requires { Ready t.now v }
    ensures { result ≡ steps_of v n }
{
    let here = steps::inner::get_king_moves(v.king);
    let there = steps::inner::get_king_moves(v.oppking);
    let targets = (here & v.mask) & !(there & v.mask) & !v.combined;
    if n == 1 {
        let checker = view::inner::to_square(v.checkers);
        let ray = tables::inner::between(t, checker, v.oppking);
        return targets & ray;
    }
    targets
}

fn stepped(list: RetractionList, t: &[u64; 4096], v: View, targets: u64) -> RetractionList
    requires { Ready t.now v }
    ensures { result ≡ pushed_all list (stepped_of v targets) }
{
    let pin = squares::has(v.pinned, v.king);
    let ray = tables::inner::between(t, v.king, v.oppking);
    let may = squares::choose(pin, targets & ray, targets);
    let one = retraction_list::inner::offer(list, v.king, may, UnCaptureKind::Optional, false);
    retraction_list::inner::offer(one, v.king, targets & !may, UnCaptureKind::Necessary, false)
}

fn safe(v: View, rook: u8, e: u8) -> bool
    requires { Whole v × (rook < 64) × (e < 64) }
    ensures { result ≡ safe_of v rook e }
{
    let a = is_attacked(v, rook);
    let b = is_attacked(v, e);
    !a & !b
}

// The king may have come from e over the rook's square, and the rook from the corner.
fn castled(v: View, n: u32, rook: u8, e: u8, corner: u8) -> bool
    requires { Whole v × (v.oppking < 64) × (rook < 64) × (e < 64) }
    ensures { result ≡ castled_of v n rook e corner }
{
    let stands = squares::has(v.men[3], rook);
    let home = squares::has(v.combined, e);
    let taken = squares::has(v.combined, corner);
    let calm = safe(v, rook, e);
    let rays = sliding::inner::get_rook_moves(v.oppking, v.combined);
    let sees = squares::has(rays, corner);
    let checks = squares::has(v.checkers, rook);
    stands & !home & !taken & calm & !sees & ((n == 0) | checks)
}

fn short(v: View, n: u32) -> bool
    requires { Whole v × (v.oppking < 64) }
    ensures { result ≡ short_of v n }
{
    let color = v.color;
    let king = laws::inner::castling::king_to(color, Side::Short);
    let rook = laws::inner::castling::rook_to(color, Side::Short);
    let e = laws::inner::castling::king_home(color);
    let corner = laws::inner::castling::rook_home(color, Side::Short);
    let free = castled(v, n, rook, e, corner);
    (v.king == king) & free
}

fn long(v: View, n: u32) -> bool
    requires { Whole v × (v.oppking < 64) }
    ensures { result ≡ long_of v n }
{
    let color = v.color;
    let king = laws::inner::castling::king_to(color, Side::Long);
    let rook = laws::inner::castling::rook_to(color, Side::Long);
    let e = laws::inner::castling::king_home(color);
    let b = geometry::inner::home_square(color, 1);
    let corner = laws::inner::castling::rook_home(color, Side::Long);
    let blocked = squares::has(v.combined, b);
    let free = castled(v, n, rook, e, corner);
    (v.king == king) & !blocked & free
}

fn uncastled(list: RetractionList, v: View, n: u32) -> RetractionList
    requires { Whole v × (v.oppking < 64) }
    ensures { result ≡ pushed_all list (uncastled_of v n) }
{
    let color = v.color;
    let a = short(v, n);
    let b = long(v, n);
    if a | b {
        let e = squares::bit(laws::inner::castling::king_home(color));
        return retraction_list::inner::put(list, v.king, e, UnCaptureKind::Forbidden, false);
    }
    list
}

// `legals` of the king with n checkers: 0 or 1.
pub fn legals(list: RetractionList, t: &[u64; 4096], v: View, n: u32) -> RetractionList
    requires { Ready t.now v }
    ensures { result ≡ pushed_all list (king_of v n) }
{
    if v.held {
        return list;
    }
    let targets = steps(t, v, n);
    let one = stepped(list, t, v, targets);
    uncastled(one, v, n)
}
