// `legals` by the kind's place among the six: 1 knight, 2 bishop, 3 rook, 4 queen. `t` is the table of `tables::between_table`, lent.
ghost use Rattle.std.specs.Prelude.{◌≡◌, ◌<◌};
ghost use Rattle.retraction_list.specs.inner.Pushing.{pushed_all};
ghost use Rattle.view.specs.inner.Readiness.{Ready};
ghost use Rattle.officers.specs.Officers.{moves_of, steps_of, quiet_of, free_of, from_of, each_of, calm_of, alone_at, alone_of, onto_of, both_at, both_of, officer_of};

use retraction_list::{RetractionList, UnCaptureKind};
use view::View;

// `Self::pseudo_legals(sq, _, occ, !EMPTY)`
fn moves(kind: usize, sq: u8, occ: u64) -> u64
    requires { sq < 64 }
    ensures { result ≡ moves_of kind sq occ }
{
    if kind == 1 {
        return steps::inner::get_knight_moves(sq);
    }
    if kind == 2 {
        return sliding::inner::get_bishop_moves(sq, occ);
    }
    if kind == 3 {
        return sliding::inner::get_rook_moves(sq, occ);
    }
    sliding::inner::get_queen_moves(sq, occ)
}

// `Self::pseudo_legals(src, retracting_color, *combined, !combined & mask)`
fn steps(v: View, kind: usize, src: u8) -> u64
    requires { src < 64 }
    ensures { result ≡ steps_of v kind src }
{
    let m = moves(kind, src, v.combined);
    m & (!v.combined & v.mask)
}

// `!check_mask`, over the given men.
fn quiet(v: View, kind: usize, occ: u64) -> u64
    requires { v.oppking < 64 }
    ensures { result ≡ quiet_of v kind occ }
{
    let m = moves(kind, v.oppking, occ);
    !m
}

// The men of the kind, without the rooks that may still castle.
fn free(v: View, kind: usize) -> u64
    requires { kind < 6 }
    ensures { result ≡ free_of v kind }
{
    let m = v.men[kind];
    if kind == 1 {
        return m;
    }
    m & !v.corners
}

// The entry of the man on src.
fn from(list: RetractionList, v: View, kind: usize, allowed: u64, src: u8) -> RetractionList
    requires { src < 64 }
    ensures { result ≡ pushed_all list (from_of v kind allowed src) }
{
    let m = steps(v, kind, src);
    let p = squares::has(v.pinned, src);
    retraction_list::inner::offer(
        list,
        src,
        m & allowed,
        retraction_list::inner::capture_kind(p),
        false,
    )
}

fn each(list: RetractionList, v: View, kind: usize, allowed: u64, set: u64) -> RetractionList
    ensures { result ≡ pushed_all list (each_of v kind allowed set) }
{
    let mut out = list;
    for src in squares::each(set) {
        out = from(out, v, kind, allowed, src);
    }
    out
}

// No checker.
fn calm(list: RetractionList, v: View, kind: usize) -> RetractionList
    requires { (v.oppking < 64) × (kind < 6) }
    ensures { result ≡ pushed_all list (calm_of v kind) }
{
    let q = quiet(v, kind, v.combined);
    let set = free(v, kind);
    each(list, v, kind, q, set)
}

// One checker, a slider of our own kind on src.
fn alone_at(list: RetractionList, v: View, kind: usize, src: u8) -> RetractionList
    requires { (v.oppking < 64) × (src < 64) }
    ensures { result ≡ pushed_all list (alone_at v kind src) }
{
    let m = steps(v, kind, src);
    let p = squares::has(v.pinned, src);
    let q = quiet(v, kind, v.combined & !v.checkers);
    let one = retraction_list::inner::offer(
        list,
        src,
        m & q,
        retraction_list::inner::capture_kind(p),
        false,
    );
    let l = sliding::inner::lines::line(v.oppking, src);
    let q2 = quiet(v, kind, v.combined);
    retraction_list::inner::offer(one, src, (l & m) & q2, UnCaptureKind::Necessary, false)
}

// One checker, of our own kind.
fn alone(list: RetractionList, v: View, kind: usize) -> RetractionList
    requires { (v.oppking < 64) × (kind < 6) }
    ensures { result ≡ pushed_all list (alone_of v kind) }
{
    let ours = free(v, kind);
    if v.checkers & ours == 0 {
        return list;
    }
    let src = view::inner::to_square(v.checkers);
    if kind == 1 {
        let m = steps(v, kind, src);
        return retraction_list::inner::offer(list, src, m, UnCaptureKind::Optional, false);
    }
    alone_at(list, v, kind, src)
}

// One checker, of another kind: a man goes back onto its ray.
fn onto(list: RetractionList, t: &[u64; 4096], v: View, kind: usize) -> RetractionList
    requires { Ready t.now v × (kind < 6) }
    ensures { result ≡ pushed_all list (onto_of v kind) }
{
    let men = v.men[kind];
    let other = (kind != 4) & (v.checkers & men == 0);
    if other {
        let checker = view::inner::to_square(v.checkers);
        let ray = tables::inner::between(t, checker, v.oppking);
        let q = quiet(v, kind, v.combined);
        let allowed = squares::choose(kind == 1, ray, ray & q);
        let set = free(v, kind);
        return each(list, v, kind, allowed, set);
    }
    list
}

// Two checkers, ours on src and another.
fn both_at(
    list: RetractionList,
    t: &[u64; 4096],
    v: View,
    kind: usize,
    src: u8,
    other: u8,
) -> RetractionList
    requires { Ready t.now v × (src < 64) × (other < 64) }
    ensures { result ≡ pushed_all list (both_at v kind src other) }
{
    let ray = tables::inner::between(t, other, v.oppking);
    let m = steps(v, kind, src);
    let q = quiet(v, kind, v.combined);
    let p = squares::has(v.pinned, src);
    let k = retraction_list::inner::capture_kind(p & (kind != 1));
    retraction_list::inner::offer(list, src, (ray & m) & q, k, false)
}

fn both(list: RetractionList, t: &[u64; 4096], v: View, kind: usize) -> RetractionList
    requires { Ready t.now v × (kind < 6) }
    ensures { result ≡ pushed_all list (both_of v kind) }
{
    let men = v.men[kind];
    let ours = free(v, kind);
    let two = (v.checkers & ours != 0) & (v.checkers & !men != 0);
    if two {
        let src = view::inner::to_square(v.checkers & men);
        let other = view::inner::to_square(v.checkers & !men);
        return both_at(list, t, v, kind, src, other);
    }
    list
}

// `legals` with n checkers: 0, 1, or 2.
pub fn legals(list: RetractionList, t: &[u64; 4096], v: View, n: u32, kind: usize) -> RetractionList
    requires { Ready t.now v × (kind < 6) }
    ensures { result ≡ pushed_all list (officer_of v n kind) }
{
    if n == 0 {
        return calm(list, v, kind);
    }
    if n == 1 {
        let one = alone(list, v, kind);
        return onto(one, t, v, kind);
    }
    both(list, t, v, kind)
}
