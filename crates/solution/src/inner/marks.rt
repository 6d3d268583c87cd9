// The places of the retractions that were said, as bits: 768 words hold the 49,152 places.
ghost use Rattle.std.specs.Prelude.{◌≡◌, ◌<◌, ◌≤◌, length};
ghost use Rattle.squares.specs.Squares.{flag};
ghost use Rattle.laws.specs.Retractions.{InRange};
ghost use Rattle.laws.specs.StrictLists.{place};
ghost use Rattle.rows.specs.inner.Marked.{marked, Marks};

use laws::ChessRetraction;

fn flag_of(b: bool) -> usize
    ensures { (result ≡ flag b) × (result ≤ 1) }
{
    if b { 1 } else { 0 }
}

// The place of a retraction in the strict order.
pub(super) fn place_of(r: ChessRetraction) -> usize
    requires { InRange r }
    ensures { (result ≡ place r) × (result < 49152) }
{
    let mark = flag_of(r.unpromotion);
    r.source as usize * 768 + (r.target as usize * 12 + (r.uncaptured as usize * 2 + mark))
}

pub(super) fn is_marked(seen: &[u64; 768], i: usize) -> bool
    requires { i < 49152 }
    ensures { result ≡ marked seen.now i }
{
    squares::has(seen[i / 64], (i % 64) as u8)
}

pub(super) fn mark(seen: &mut [u64; 768], i: usize)
    requires { (i < 49152) × (length seen.old ≡ 768) }
    ensures { Marks seen.old i seen.new }
{
    let w = i / 64;
    seen[w] = seen[w] | squares::bit((i % 64) as u8);
}
