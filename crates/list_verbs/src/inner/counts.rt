// What is told of a board's lists in one word: how long they are, whether they are limited, whether there is a last move.
ghost use Rattle.puts.specs.inner.Growing.{Grows};

use refusal::Refusal;
use slots::Unlisted;

pub(super) fn put_count(l: Result<usize, Unlisted>, out: &mut [u8; 65536]) -> usize
    ensures { Grows 0 result }
{
    match l {
        Ok(n) => puts::inner::number(out, 0, n as u64),
        Err(Unlisted::Room(n)) => puts::inner::number(out, 0, n as u64),
        Err(Unlisted::Refused(r)) => puts::inner::refused(r, out),
    }
}

pub(super) fn put_strict(c: Result<usize, Refusal>, out: &mut [u8; 65536]) -> usize
    ensures { Grows 0 result }
{
    match c {
        Ok(n) => puts::inner::number(out, 0, n as u64),
        Err(r) => puts::inner::refused(r, out),
    }
}

pub(super) fn put_limited(l: Result<bool, Refusal>, out: &mut [u8; 65536]) -> usize
    ensures { Grows 0 result }
{
    match l {
        Ok(true) => puts::inner::told(out, true),
        Ok(false) => puts::inner::told(out, false),
        Err(r) => puts::inner::refused(r, out),
    }
}

// `1` where there is a last move
pub(super) fn put_last_move(l: Result<bool, Refusal>, out: &mut [u8; 65536]) -> usize
    ensures { Grows 0 result }
{
    match l {
        Ok(true) => puts::inner::told(out, true),
        Ok(false) => puts::inner::told(out, false),
        Err(r) => puts::inner::refused(r, out),
    }
}
