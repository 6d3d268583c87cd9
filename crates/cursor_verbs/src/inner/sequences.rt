// What each press of a board's cursor yields.
ghost use Rattle.puts.specs.inner.Growing.{Grows};

use laws::ChessRetraction;
use refusal::Refusal;
use retraction_gen::RetractionGen;

// What each press of a board's cursor yields, packed, up to the third end.
pub(super) fn put(lent: bool, made: Result<RetractionGen, Refusal>, out: &mut [u8; 65536]) -> usize
    ensures { Grows 0 result }
{
    match made {
        Ok(g) => put_presses(lent, g, out),
        Err(r) => puts::inner::refused(r, out),
    }
}

// 47 entries have 64 targets and 6 uncaptures at most each, so the turns suffice.
fn put_presses(lent: bool, mut g: RetractionGen, out: &mut [u8; 65536]) -> usize
    ensures { Grows 0 result }
{
    let mut n = 0;
    let mut ends = 0;
    for _ in 0..20000 {
        let s = super::moved_on(lent, g);
        let answer = s.next;
        g = s.cursor;
        n = put_press(answer, out, n);
        ends = ends_with(answer, ends);
        if ends == 3 {
            break;
        }
    }
    n
}

fn ends_with(answer: Option<ChessRetraction>, ends: u8) -> u8 {
    match answer {
        Some(_) => 0,
        None => ends.saturating_add(1).min(3),
    }
}

fn put_press(answer: Option<ChessRetraction>, out: &mut [u8; 65536], len: usize) -> usize
    ensures { Grows len result }
{
    let a = gap(out, len);
    match answer {
        Some(r) => puts::inner::retraction(out, a, r),
        None => puts::inner::bytes(out, a, b"end"),
    }
}

// A space, but not at the start.
fn gap(out: &mut [u8; 65536], len: usize) -> usize
    ensures { Grows len result }
{
    if len == 0 {
        return 0;
    }
    puts::inner::bytes(out, len, b" ")
}
