// Un-pushes and uncaptures of pawns and of men on the last rank, and the pawn's whole list. `t` is the table of `tables::between_table`, lent.
ghost use Rattle.std.specs.Prelude.{◌≡◌, ◌<◌};
ghost use Rattle.squares.specs.Members.{members, concat};
ghost use Rattle.retraction_list.specs.inner.Pushing.{pushed_all};
ghost use Rattle.view.specs.inner.Readiness.{Ready};
ghost use Rattle.pawns.specs.Pawns.{candidate_retractors, other_ray_of, allows_of, doubled_of, crossed_of, home_of, unpush_of, uncapture_of, from_of, steps_of, pawn_of};

use retraction_list::{RetractionList, UnCaptureKind};
use view::{Edition, EnPassantFlag, View};

fn candidate_retractors(v: View, n: u32) -> u64
    ensures { result ≡ candidate_retractors v n }
{
    let color = v.color;
    let last = squares::get_rank(geometry::inner::own_rank(color, 7));
    let pawns = v.men[0];
    let checking = v.checkers & (pawns | last);
    if (n >= 1) & (checking != 0) {
        return checking;
    }
    let king = squares::bit(v.king);
    if n <= 1 {
        return pawns | (last & v.own & !king);
    }
    0
}

// `other_checker_ray`
fn other_ray(t: &[u64; 4096], v: View, n: u32, src: u8) -> u64
    requires { Ready t.now v × (src < 64) }
    ensures { result ≡ other_ray_of v n src }
{
    let checker = view::inner::to_square(v.checkers);
    if (n == 0) | ((n == 1) & (checker == src)) {
        return 0xffff_ffff_ffff_ffff;
    }
    let own = squares::bit(src);
    let other = view::inner::to_square(v.checkers & !own);
    tables::inner::between(t, other, v.oppking)
}

// Unknown rules nothing out; a dash says that no pawn could take the one that stepped, or, in B, that none stepped.
fn allows(edition: Edition, e: EnPassantFlag, lonely: bool) -> bool
    ensures { result ≡ allows_of edition e lonely }
{
    match e {
        EnPassantFlag::Any => true,
        EnPassantFlag::Some(_) => false,
        EnPassantFlag::None => match edition {
            Edition::A => lonely,
            Edition::B => false,
        },
    }
}

// The pawn on src may have made a double push over `crossed`.
fn doubled(v: View, src: u8, crossed: u8) -> bool
    requires { src < 64 }
    ensures { result ≡ doubled_of v src crossed }
{
    let color = v.color;
    let fourth = geometry::inner::own_rank(color, 3);
    let files = view::inner::adjacent_files(src);
    let near = squares::get_rank(src / 8);
    let e = v.passant;
    let edition = v.edition;
    let may = allows(edition, e, (files & near) & v.rivals == 0);
    let blocked = squares::has(v.combined, crossed);
    ((src / 8 == fourth) & may) & !blocked
}

// The squares that a push came from, before the masks.
fn crossing(v: View, src: u8, crossed: u8) -> u64
    requires { (src < 64) × (crossed < 64) }
    ensures { result ≡ crossed_of v src crossed }
{
    let color = v.color;
    let one = squares::bit(crossed);
    let further = geometry::inner::ubackward(color, crossed);
    let two = squares::bit(further);
    if doubled(v, src, crossed) {
        return one | two;
    }
    one
}

fn home(v: View, ray: u64) -> u64
    requires { v.oppking < 64 }
    ensures { result ≡ home_of v ray }
{
    let color = v.color;
    let first_rank = squares::get_rank(geometry::inner::own_rank(color, 0));
    let free = un_en_passant::inner::vacant(v);
    free & !first_rank & ray & v.mask
}

fn unpush(v: View, ray: u64, src: u8) -> u64
    requires { (v.oppking < 64) × (src < 64) }
    ensures { result ≡ unpush_of v ray src }
{
    let color = v.color;
    let crossed = geometry::inner::ubackward(color, src);
    let to = crossing(v, src, crossed);
    let free = home(v, ray);
    if squares::has(v.pinned, src) {
        let l = sliding::inner::lines::line(src, v.oppking);
        return to & free & l;
    }
    to & free
}

fn uncapture(v: View, ray: u64, src: u8) -> u64
    requires { (v.oppking < 64) × (src < 64) }
    ensures { result ≡ uncapture_of v ray src }
{
    let color = v.color;
    let other = geometry::other(color);
    let to = steps::inner::get_pawn_attacks(other, src);
    let free = home(v, ray);
    to & free
}

// Both entries of the man on src.
fn from(list: RetractionList, t: &[u64; 4096], v: View, n: u32, src: u8) -> RetractionList
    requires { Ready t.now v × (src < 64) }
    ensures { result ≡ pushed_all list (from_of v n src) }
{
    let color = v.color;
    let ray = other_ray(t, v, n, src);
    let mark = src / 8 == geometry::inner::own_rank(color, 7);
    let step = unpush(v, ray, src);
    let one = retraction_list::inner::offer(list, src, step, UnCaptureKind::Forbidden, mark);
    let take = uncapture(v, ray, src);
    retraction_list::inner::offer(one, src, take, UnCaptureKind::Necessary, mark)
}

fn each(list: RetractionList, t: &[u64; 4096], v: View, n: u32, set: u64) -> RetractionList
    requires { Ready t.now v }
    ensures { result ≡ pushed_all list (concat (from_of v n) (members set)) }
{
    let mut out = list;
    for src in squares::each(set) {
        out = from(out, t, v, n, src);
    }
    out
}

// `for src in candidate_retractors`, with n checkers: 0, 1, or 2.
fn steps(list: RetractionList, t: &[u64; 4096], v: View, n: u32) -> RetractionList
    requires { Ready t.now v }
    ensures { result ≡ pushed_all list (steps_of v n) }
{
    let set = candidate_retractors(v, n);
    each(list, t, v, n, set)
}

// `legals` of the pawn.
pub fn legals(list: RetractionList, t: &[u64; 4096], v: View, n: u32) -> RetractionList
    requires { Ready t.now v }
    ensures { result ≡ pushed_all list (pawn_of v n) }
{
    let one = steps(list, t, v, n);
    un_en_passant::inner::un_en_passants(one, t, v, n)
}
