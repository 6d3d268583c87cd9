// Bytes, numbers, sets and retractions put behind the first bytes of an answer, which stays as it is where there is no room.
ghost use Rattle.puts.specs.inner.Growing.{Grows};

use laws::ChessRetraction;
use refusal::Refusal;

pub fn bytes(out: &mut [u8; 65536], len: usize, text: &[u8]) -> usize
    ensures { Grows len result }
{
    output::put_bytes(out, len, text).unwrap_or(len)
}

// The first n bytes of a text, none where it has fewer.
pub fn front(out: &mut [u8; 65536], len: usize, text: &[u8], n: usize) -> usize
    ensures { Grows len result }
{
    if n > text.len() {
        return len;
    }
    bytes(out, len, &text[..n])
}

pub fn number(out: &mut [u8; 65536], len: usize, x: u64) -> usize
    ensures { Grows len result }
{
    output::put_decimal(out, len, x).unwrap_or(len)
}

// Sixteen hexadecimal digits.
pub fn set(out: &mut [u8; 65536], len: usize, x: u64) -> usize
    ensures { Grows len result }
{
    output::put_hex16(out, len, x).unwrap_or(len)
}

pub fn next_number(out: &mut [u8; 65536], len: usize, x: u64) -> usize
    ensures { Grows len result }
{
    let a = bytes(out, len, b" ");
    number(out, a, x)
}

pub fn next_set(out: &mut [u8; 65536], len: usize, x: u64) -> usize
    ensures { Grows len result }
{
    let a = bytes(out, len, b" ");
    set(out, a, x)
}

// The i-th of several numbers: a space before all but the first.
pub fn member(out: &mut [u8; 65536], len: usize, i: usize, x: u64) -> usize
    ensures { Grows len result }
{
    if i == 0 {
        return number(out, len, x);
    }
    next_number(out, len, x)
}

// A retraction, packed.
pub fn retraction(out: &mut [u8; 65536], len: usize, r: ChessRetraction) -> usize
    ensures { Grows len result }
{
    let men = r.source as u64 + 64 * (r.target as u64) + 4096 * (r.uncaptured as u64);
    if r.unpromotion {
        return number(out, len, men + 32768);
    }
    number(out, len, men)
}

// Six sets, single spaces between.
pub fn sets(out: &mut [u8; 65536], len: usize, s: [u64; 6]) -> usize
    ensures { Grows len result }
{
    let a = set(out, len, s[0]);
    let b = next_set(out, a, s[1]);
    let c = next_set(out, b, s[2]);
    let d = next_set(out, c, s[3]);
    let e = next_set(out, d, s[4]);
    next_set(out, e, s[5])
}

// `1` or `0`
pub fn told(out: &mut [u8; 65536], yes: bool) -> usize
    ensures { Grows 0 result }
{
    if yes {
        bytes(out, 0, b"1")
    } else {
        bytes(out, 0, b"0")
    }
}

// `refused N`
pub fn refused(r: Refusal, out: &mut [u8; 65536]) -> usize
    ensures { Grows 0 result }
{
    refused_by(out, 0, refusal::number(r))
}

pub fn refused_by(out: &mut [u8; 65536], len: usize, n: u8) -> usize
    ensures { Grows len result }
{
    let a = bytes(out, len, b"refused ");
    number(out, a, n as u64)
}
