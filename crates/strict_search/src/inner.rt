// The strict places of an accepted position, in order. `t` is the table of squares between, lent.
ghost use Rattle.std.specs.Prelude.{◌≡◌, [], map, ◌<◌, ◌≤◌, length};
ghost use Rattle.geometry.specs.Lines.{IsBetween};
ghost use Rattle.laws.specs.Retractions.{packed};
ghost use Rattle.laws.specs.StrictLists.{retraction_at};
ghost use Rattle.laws.specs.Boards.{pos_at};
ghost use Rattle.refusal.specs.Said.{Writes};
ghost use Rattle.slots.specs.Slots.{fill_from, listed_says};
ghost use Rattle.strict_test.specs.inner.Strictly.{Today};
ghost use Rattle.strict_search.specs.inner.Searching.{strict_moves, test_of, Next};
ghost use Rattle.strict_search.specs.inner.Keeping.{kept_moves, Gathers};

use laws::{ChessRetraction, Position};
use slots::Unlisted;

mod kept; // kept.rt: the sets of all sources in one array
mod places; // places.rt: the strict places of one source, from its sets

// 64 sources, 64 targets, 6 uncaptured men, 2 marks; those of one source, and those of one source and target.
pub const PLACES: usize = 49152;

const OF_A_SOURCE: usize = 768;

const OF_A_PAIR: usize = 12;

// The retraction at a place.
pub fn candidate(i: usize) -> ChessRetraction
    requires { i < 49152 }
    ensures { result ≡ retraction_at i }
{
    ChessRetraction {
        source: (i / OF_A_SOURCE) as u8,
        target: (i / OF_A_PAIR % 64) as u8,
        uncaptured: (i / 2 % 6) as u8,
        unpromotion: i % 2 == 1,
    }
}

// The first strict place from `start` on, or the end.
pub fn next_from(t: &[u64; 4096], p: Position, start: usize) -> usize
    requires { IsBetween t.now × Today p × (start ≤ 49152) }
    ensures { Next (test_of (pos_at p)) start result }
{
    let mut i = start;
    // No `for`: a source without a strict place is passed over whole.
    while i < PLACES {
        let w = strict_sets::inner::targets_of(t, p, (i / OF_A_SOURCE) as u8);
        let j = places::first_in(w, i);
        if j / OF_A_SOURCE == i / OF_A_SOURCE {
            return j;
        }
        i = j;
    }
    i
}

// The sets of each source, and how many strict places they have together.
fn gather(t: &[u64; 4096], p: Position, kept: &mut [u64; 320]) -> usize
    requires { (IsBetween t.now × Today p) × (length kept.old ≡ 320) }
    ensures { Gathers (pos_at p) kept.new result }
{
    let mut n = 0;
    for s in 0..64usize {
        let w = strict_sets::inner::targets_of(t, p, s as u8);
        kept::keep(kept, s, w);
        n += places::size_of(w);
    }
    n
}

pub fn count(t: &[u64; 4096], p: Position) -> usize
    requires { IsBetween t.now × Today p }
    ensures { result ≡ length (strict_moves (pos_at p)) }
{
    let mut kept = [0u64; 320];
    gather(t, p, &mut kept)
}

// The retractions of the kept sets, packed, from the first slot on.
fn fill(kept: &[u64; 320], slots: &mut [u16])
    requires { length (kept_moves kept.now) ≤ length slots.old }
    ensures { slots.new ≡ fill_from slots.old 0 (kept_moves kept.now) }
{
    let mut n: usize = 0;
    let mut i: usize = 0;
    // No `for`: the next strict place comes next, or the next source.
    while i < PLACES {
        let w = kept::kept_at(kept, i / OF_A_SOURCE);
        let j = places::first_in(w, i);
        if j / OF_A_SOURCE == i / OF_A_SOURCE {
            slots[n] = laws::inner::pack(candidate(j));
            n += 1;
            i = j + 1;
        } else {
            i = j;
        }
    }
}

// The strict retractions of a position, into slots: refusal 13. Nothing is written before the room is known.
pub fn list(t: &[u64; 4096], p: Position, slots: &mut [u16]) -> Result<usize, Unlisted>
    requires { IsBetween t.now × Today p }
    ensures { Writes [] (map packed (strict_moves (pos_at p))) slots.old (listed_says result) slots.new }
{
    let mut kept = [0u64; 320];
    let n = gather(t, p, &mut kept);
    if n > slots.len() {
        return Err(Unlisted::Room(n));
    }
    fill(&kept, slots);
    Ok(n)
}
