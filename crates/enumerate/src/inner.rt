// The lists of what is seen of a board, of which no acceptance is asked. `t` is the table of `tables::between_table`, lent.
ghost use Rattle.std.specs.Prelude.{◌≡◌, []};
ghost use Rattle.retraction_list.specs.inner.Pushing.{pushed_all, answer_of};
ghost use Rattle.retraction_list.specs.Entries.{holding};
ghost use Rattle.view.specs.inner.Readiness.{Ready};
ghost use Rattle.enumerate.specs.Lists.{lesser_of, kinds_of, by_checkers, named_of, list_of, all_but_pawns};

use retraction_list::{RetractionList, UnCaptureKind};
use view::{EnPassantFlag, View};

// Pawn, knight, bishop, rook.
fn lesser(t: &[u64; 4096], v: View, n: u32) -> RetractionList
    requires { Ready t.now v }
    ensures { result ≡ pushed_all (holding []) (lesser_of v n) }
{
    let none = retraction_list::inner::empty();
    let b = officers::inner::legals(pawns::inner::legals(none, t, v, n), t, v, n, 1);
    let c = officers::inner::legals(b, t, v, n, 2);
    officers::inner::legals(c, t, v, n, 3)
}

// With two checkers no queen and no king.
fn kinds(t: &[u64; 4096], v: View, n: u32) -> RetractionList
    requires { Ready t.now v }
    ensures { result ≡ pushed_all (holding []) (kinds_of v n) }
{
    let d = lesser(t, v, n);
    if n == 2 {
        return d;
    }
    let e = officers::inner::legals(d, t, v, n, 4);
    kings::inner::legals(e, t, v, n)
}

// With three checkers or more, none.
fn by_checkers(t: &[u64; 4096], v: View, n: u32) -> RetractionList
    requires { Ready t.now v }
    ensures { result ≡ pushed_all (holding []) (by_checkers v n) }
{
    if n > 2 {
        return retraction_list::inner::empty();
    }
    kinds(t, v, n)
}

// The one entry of a named square.
fn named(v: View, sq: u8) -> RetractionList
    ensures { result ≡ pushed_all (holding []) (named_of v sq) }
{
    let color = v.color;
    let file = squares::get_file(sq % 8);
    let second = squares::get_rank(geometry::inner::own_rank(color, 1));
    let none = retraction_list::inner::empty();
    retraction_list::inner::put(none, sq, file & second, UnCaptureKind::Forbidden, false)
}

fn listed(t: &[u64; 4096], v: View) -> RetractionList
    requires { Ready t.now v }
    ensures { result ≡ pushed_all (holding []) (list_of v) }
{
    let n = squares::count(v.checkers);
    let e = v.passant;
    match e {
        EnPassantFlag::Any => by_checkers(t, v, n),
        EnPassantFlag::Some(sq) => named(v, sq % 64),
        EnPassantFlag::None => by_checkers(t, v, n),
    }
}

// The ported list; FULL where it would need a 48th entry.
pub fn enumerate(t: &[u64; 4096], v: View) -> RetractionList
    requires { Ready t.now v }
    ensures { result ≡ answer_of (list_of v) }
{
    let l = listed(t, v);
    if l.full {
        return retraction_list::inner::overfull();
    }
    l
}

// Knight, bishop, rook, queen, king, as with no checker.
fn without_pawns(t: &[u64; 4096], v: View) -> RetractionList
    requires { Ready t.now v }
    ensures { result ≡ pushed_all (holding []) (all_but_pawns v) }
{
    let none = retraction_list::inner::empty();
    let a = officers::inner::legals(none, t, v, 0, 1);
    let b = officers::inner::legals(a, t, v, 0, 2);
    let c = officers::inner::legals(b, t, v, 0, 3);
    let d = officers::inner::legals(c, t, v, 0, 4);
    kings::inner::legals(d, t, v, 0)
}

// A list that the limited test builds; FULL where it would need a 48th entry.
pub fn all_but_pawns(t: &[u64; 4096], v: View) -> RetractionList
    requires { Ready t.now v }
    ensures { result ≡ answer_of (all_but_pawns v) }
{
    let l = without_pawns(t, v);
    if l.full {
        return retraction_list::inner::overfull();
    }
    l
}
