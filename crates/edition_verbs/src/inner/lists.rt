// The lists of a board, put whole: a number, then each retraction packed, single spaces between. `t` is the table of squares between, lent.
ghost use Rattle.geometry.specs.Lines.{IsBetween};
ghost use Rattle.puts.specs.inner.Growing.{Grows};

use board::RetractableBoard;
use refusal::Refusal;
use retraction_gen::RetractionGen;
use slots::Unlisted;

// The number of entries of the board's cursor, then the ported list.
pub(super) fn put_ported(t: &[u64; 4096], b: RetractableBoard, out: &mut [u8; 65536]) -> usize
    requires { IsBetween t.now }
    ensures { Grows 0 result }
{
    match RetractionGen::new_legal(b) {
        Err(r) => puts::inner::refused(r, out),
        Ok(g) => {
            let mut slots = [0u16; 8192];
            let l = listing::inner::retractions_into(t, b, &mut slots);
            put_listed(l, g.len, &slots, out)
        }
    }
}

// The number of strict retractions, then the strict list.
pub(super) fn put_strict(t: &[u64; 4096], b: RetractableBoard, out: &mut [u8; 65536]) -> usize
    requires { IsBetween t.now }
    ensures { Grows 0 result }
{
    let mut slots = [0u16; 8192];
    let l = strict::inner::strict_into(t, b, &mut slots);
    put_listed(l, l.unwrap_or(0), &slots, out)
}

fn put_listed(
    l: Result<usize, Unlisted>,
    first: usize,
    slots: &[u16],
    out: &mut [u8; 65536],
) -> usize
    ensures { Grows 0 result }
{
    match l {
        Ok(n) => {
            let len = puts::inner::number(out, 0, first as u64);
            put_members(slots, n, out, len)
        }
        Err(why) => puts::inner::refused(Refusal::from(why), out),
    }
}

// The first `count` slots, a space before each.
fn put_members(slots: &[u16], count: usize, out: &mut [u8; 65536], len: usize) -> usize
    ensures { Grows len result }
{
    let mut n = len;
    for slot in slots.iter().take(count) {
        n = puts::inner::next_number(out, n, u64::from(*slot));
    }
    n
}
