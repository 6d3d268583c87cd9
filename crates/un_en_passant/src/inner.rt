// Un-en-passant. `reborn` is the Rust's `reappearing_pawn_square`; `t` is the table of `tables::between_table`, lent.
ghost use Rattle.std.specs.Prelude.{◌≡◌, ◌<◌};
ghost use Rattle.squares.specs.Members.{members, concat};
ghost use Rattle.geometry.specs.Lines.{IsBetween};
ghost use Rattle.retraction_list.specs.inner.Pushing.{pushed_all};
ghost use Rattle.view.specs.inner.Readiness.{Ready};
ghost use Rattle.un_en_passant.specs.UnEnPassants.{vacant_of, beside_reborn, under_one, rays_of, one_of_two, two_others, under_two, under_of, passant_at, passant_of, un_en_passants_of};

use retraction_list::{RetractionList, UnCaptureKind};
use view::View;

// `!combined & !check_mask`: empty, and no check from there.
pub fn vacant(v: View) -> u64
    requires { v.oppking < 64 }
    ensures { result ≡ vacant_of v }
{
    let color = v.color;
    let other = geometry::other(color);
    let check_mask = steps::inner::get_pawn_attacks(other, v.oppking);
    !v.combined & !check_mask
}

// The targets before the checkers are looked at.
fn beside_reborn(v: View, src: u8, reborn: u8) -> u64
    requires { (v.oppking < 64) × (src < 64) }
    ensures { result ≡ beside_reborn v src reborn }
{
    let files = view::inner::adjacent_files(src);
    let near = squares::get_rank(reborn / 8);
    let free = vacant(v);
    let l = sliding::inner::lines::line(src, v.oppking);
    let pin = squares::has(v.pinned, src);
    let on = squares::has(l, reborn);
    if pin & !on {
        return (files & near) & free & v.mask & l;
    }
    (files & near) & free & v.mask
}

// One checker.
fn under_one(t: &[u64; 4096], v: View, src: u8, reborn: u8, targets: u64) -> u64
    requires { Ready t.now v }
    ensures { result ≡ under_one v src reborn targets }
{
    let checker = view::inner::to_square(v.checkers);
    let ray = tables::inner::between(t, checker, v.oppking);
    let blocks = squares::has(ray, reborn);
    if (checker != src) & !blocks {
        return targets & ray;
    }
    targets
}

// The rays of all checkers.
fn rays(t: &[u64; 4096], oppking: u8, set: u64) -> u64
    requires { IsBetween t.now × (oppking < 64) }
    ensures { result ≡ rays_of oppking set }
{
    let mut out: u64 = 0;
    for checker in squares::each(set) {
        out |= tables::inner::between(t, checker, oppking);
    }
    out
}

// Two checkers, the man on src and another. The Rust's test is inverted: it keeps to the ray where the reborn pawn stands on it.
fn one_of_two(t: &[u64; 4096], v: View, other: u8, reborn: u8, targets: u64) -> u64
    requires { Ready t.now v × (other < 64) }
    ensures { result ≡ one_of_two v other reborn targets }
{
    let ray = tables::inner::between(t, other, v.oppking);
    let blocks = squares::has(ray, reborn);
    squares::choose(blocks, targets & ray, targets)
}

// Two checkers beside the man on src.
fn two_others(t: &[u64; 4096], v: View, reborn: u8, targets: u64) -> u64
    requires { Ready t.now v }
    ensures { result ≡ two_others v reborn targets }
{
    let all = rays(t, v.oppking, v.checkers);
    let blocks = squares::has(all, reborn);
    squares::choose(blocks, targets, 0) & all
}

fn under_two(t: &[u64; 4096], v: View, src: u8, reborn: u8, targets: u64) -> u64
    requires { Ready t.now v }
    ensures { result ≡ under_two v src reborn targets }
{
    if squares::has(v.checkers, src) {
        let own = squares::bit(src);
        let other = view::inner::to_square(v.checkers & !own);
        return one_of_two(t, v, other, reborn, targets);
    }
    two_others(t, v, reborn, targets)
}

fn under(t: &[u64; 4096], v: View, n: u32, src: u8, reborn: u8, targets: u64) -> u64
    requires { Ready t.now v }
    ensures { result ≡ under_of v n src reborn targets }
{
    if n == 1 {
        return under_one(t, v, src, reborn, targets);
    }
    if n == 2 {
        return under_two(t, v, src, reborn, targets);
    }
    targets
}

fn passant_at(
    list: RetractionList,
    t: &[u64; 4096],
    v: View,
    n: u32,
    src: u8,
    reborn: u8,
) -> RetractionList
    requires { Ready t.now v × (src < 64) }
    ensures { result ≡ pushed_all list (passant_at v n src reborn) }
{
    let near = beside_reborn(v, src, reborn);
    let targets = under(t, v, n, src, reborn, near);
    retraction_list::inner::offer(list, src, targets, UnCaptureKind::UnEnPassant, false)
}

// The entry of the pawn on src, where the squares before and behind it are empty.
fn passant(list: RetractionList, t: &[u64; 4096], v: View, n: u32, src: u8) -> RetractionList
    requires { Ready t.now v × (src < 64) }
    ensures { result ≡ pushed_all list (passant_of v n src) }
{
    let color = v.color;
    let other = geometry::other(color);
    let ahead = geometry::inner::ubackward(other, src);
    let reborn = geometry::inner::ubackward(color, src);
    let a = squares::has(v.combined, ahead);
    let b = squares::has(v.combined, reborn);
    if a | b {
        return list;
    }
    passant_at(list, t, v, n, src, reborn)
}

fn each(list: RetractionList, t: &[u64; 4096], v: View, n: u32, set: u64) -> RetractionList
    requires { Ready t.now v }
    ensures { result ≡ pushed_all list (concat (passant_of v n) (members set)) }
{
    let mut out = list;
    for src in squares::each(set) {
        out = passant(out, t, v, n, src);
    }
    out
}

// `for src in ep_rank & pieces`, with n checkers: 0, 1, or 2.
pub fn un_en_passants(list: RetractionList, t: &[u64; 4096], v: View, n: u32) -> RetractionList
    requires { Ready t.now v }
    ensures { result ≡ pushed_all list (un_en_passants_of v n) }
{
    let color = v.color;
    let ep_rank = squares::get_rank(geometry::inner::own_rank(color, 5));
    let pawns = v.men[0];
    each(list, t, v, n, ep_rank & pawns)
}
