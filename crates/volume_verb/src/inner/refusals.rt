// Why a volume, or the lines of one, are refused.
ghost use Rattle.puts.specs.inner.Growing.{Grows};

use volume_contents::{Flaw, Why};

// `refused N` with the line or the row, 0 for the head; behind 17 also the flaw, and behind 13 the number of bytes needed instead.
pub(super) fn put(why: Why, out: &mut [u8; 65536]) -> usize
    ensures { Grows 0 result }
{
    let a = puts::inner::refused_by(out, 0, volume_contents::number(why));
    match why {
        Why::Line(k) => puts::inner::next_number(out, a, k as u64),
        Why::Contents(f, k) => {
            let b = puts::inner::next_number(out, a, k as u64);
            put_flaw(f, out, b)
        }
        Why::Body(k) => puts::inner::next_number(out, a, k as u64),
        Why::Board(_, k) => puts::inner::next_number(out, a, k as u64),
        Why::Room(n) => puts::inner::next_number(out, a, n as u64),
    }
}

fn put_flaw(f: Flaw, out: &mut [u8; 65536], len: usize) -> usize
    ensures { Grows len result }
{
    match f {
        Flaw::Mark => puts::inner::bytes(out, len, b" mark"),
        Flaw::Version => puts::inner::bytes(out, len, b" version"),
        Flaw::Size => puts::inner::bytes(out, len, b" size"),
        Flaw::Number => puts::inner::bytes(out, len, b" number"),
        Flaw::Edition => puts::inner::bytes(out, len, b" edition"),
        Flaw::Length => puts::inner::bytes(out, len, b" length"),
        Flaw::Order => puts::inner::bytes(out, len, b" order"),
        Flaw::Outside => puts::inner::bytes(out, len, b" outside"),
        Flaw::Overlap => puts::inner::bytes(out, len, b" overlap"),
        Flaw::Gap => puts::inner::bytes(out, len, b" gap"),
        Flaw::Place => puts::inner::bytes(out, len, b" place"),
        Flaw::EditionB => puts::inner::bytes(out, len, b" edition-b"),
        Flaw::Many => puts::inner::bytes(out, len, b" many"),
    }
}
