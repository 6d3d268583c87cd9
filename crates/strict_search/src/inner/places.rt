// The strict places of one source, from its sets of targets.
ghost use Rattle.std.specs.Prelude.{◌≡◌, not, ◌/◌, ◌<◌};
ghost use Rattle.squares.specs.Tests.{◌and◌};
ghost use Rattle.squares.specs.Squares.{odd, has, up_to, count_to};
ghost use Rattle.strict_sets.specs.inner.Sets.{holds_at};
ghost use Rattle.strict_search.specs.inner.Searching.{holds_in, FirstIn, Jumps};

use super::{OF_A_PAIR, OF_A_SOURCE};
use strict_sets::Targets;

// The numbers of the men that may be uncaptured, 1 to 5.
const MEN: u64 = 62;

// The men's numbers, doubled: the bits are moved apart by fours, by twos and one by one.
fn doubled(men: u64) -> u64
    requires { men < 64 }
    ensures { result ≡ up_to 12 (λ n. not (odd n) and has men (n / 2)) }
{
    let halves = (men | men << 4) & 0x0f0f;
    let quarters = (halves | halves << 2) & 0x3333;
    (quarters | quarters << 1) & 0x5555
}

// The strict places of a target among its twelve: twice the man's number, and 1 where it is marked.
fn twelve(w: Targets, q: u8) -> u64
    ensures { result ≡ up_to 12 (λ n. holds_at w q (n / 2) (odd n)) }
{
    let men = doubled(w.men & MEN);
    let plain = squares::choose(squares::has(w.plain, q), 1, 0);
    let taking = squares::choose(squares::has(w.taking, q), men, 0);
    let marked = squares::choose(squares::has(w.marked, q), 2, 0);
    let both = squares::choose(squares::has(w.both, q), men << 1, 0);
    plain | taking | marked | both
}

// How many places of the source are strict.
pub(super) fn size_of(w: Targets) -> usize
    ensures { result ≡ count_to 768 (holds_in w) }
{
    let all = w.plain | w.taking | w.marked | w.both;
    if all == 0 {
        return 0;
    }
    let men = squares::count(w.men & MEN) as usize;
    let plain = squares::count(w.plain) as usize;
    let taking = squares::count(w.taking) as usize;
    let marked = squares::count(w.marked) as usize;
    let both = squares::count(w.both) as usize;
    plain + marked + (taking + both) * men
}

// The first place behind the target of i with a target in the set, or the end of the source.
fn jump(set: u64, i: usize) -> usize
    requires { i < 49152 }
    ensures { Jumps set i result }
{
    let q = i / OF_A_PAIR % 64;
    let n = squares::lowest((set >> q) >> 1) as usize;
    if q + n < 63 {
        return (i / OF_A_PAIR + n + 1) * OF_A_PAIR;
    }
    (i / OF_A_SOURCE + 1) * OF_A_SOURCE
}

// The first strict place from i on among those of its source, or the end of the source.
pub(super) fn first_in(w: Targets, i: usize) -> usize
    requires { i < 49152 }
    ensures { FirstIn (holds_in w) i result }
{
    let all = w.plain | w.taking | w.marked | w.both;
    let end = (i / OF_A_SOURCE + 1) * OF_A_SOURCE;
    if all == 0 {
        return end;
    }
    let mut j = i;
    // No `for`: the targets without a strict place are passed over.
    while j < end {
        let left = twelve(w, (j / OF_A_PAIR % 64) as u8) >> (j % OF_A_PAIR);
        if left != 0 {
            return j + squares::lowest(left) as usize;
        }
        j = jump(all, j);
    }
    end
}
