// The head and the rows of a volume, written and read.
ghost use Rattle.std.specs.Prelude.{◌≡◌, ◌+◌, ◌≤◌, ◌<◌, get_or};
ghost use Rattle.men_field.specs.inner.Lines.{Holds};
ghost use Rattle.volume_contents.specs.Layout.{head_of, row_of, edition_byte, two_at, entry_at};
ghost use Rattle.volume_contents.specs.Contents.{problems};
ghost use Rattle.volume_contents.specs.inner.Walks.{edition_of, Rising, Bound, WalksTo};

use super::{Entry, Flaw};
use laws::Edition;
use men_field::Line;
use men_field::inner::push;

pub mod tests; // tests.rt: the tests of 17

// The byte of an edition.
fn edition_byte(edition: Edition) -> u8
    ensures { result ≡ edition_byte edition }
{
    match edition {
        Edition::A => b'A',
        Edition::B => b'B',
    }
}

// The edition of a byte; where it is none's, A.
pub fn edition_of(b: u8) -> Edition
    ensures { result ≡ edition_of b }
{
    if b == b'B' {
        return Edition::B;
    }
    Edition::A
}

// The first six bytes: the mark, the version and the number of problems.
pub fn head_of(n: usize) -> Line
    ensures { Holds result (head_of n) × (result.len ≡ 6) }
{
    let none = Line {
        bytes: [0; 81],
        len: 0,
    };
    let a = push(none, b'V');
    let b = push(a, b'O');
    let c = push(b, b'L');
    let d = push(c, 1);
    let e = push(d, (n / 256 % 256) as u8);
    push(e, (n % 256) as u8)
}

// A row: number, edition, place and length.
pub fn row_of(number: usize, edition: Edition, place: usize) -> Line
    ensures { Holds result (row_of number edition place) × (result.len ≡ 8) }
{
    let none = Line {
        bytes: [0; 81],
        len: 0,
    };
    let a = push(none, (number / 256 % 256) as u8);
    let b = push(a, (number % 256) as u8);
    let c = push(b, edition_byte(edition));
    let d = push(c, (place / 16777216 % 256) as u8);
    let e = push(d, (place / 65536 % 256) as u8);
    let f = push(e, (place / 256 % 256) as u8);
    let g = push(f, (place % 256) as u8);
    push(g, 34)
}

// The byte at a place, 0 behind the last one.
fn byte(v: &[u8], i: usize) -> u8
    ensures { result ≡ get_or v.now i 0 }
{
    if i < v.len() { v[i] } else { 0 }
}

// The number in the two bytes from `at` on, the high one first.
fn two(v: &[u8], at: usize) -> usize
    requires { at < 4294967296 }
    ensures { (result ≡ two_at v.now at) × (result < 65536) }
{
    256 * (byte(v, at) as usize) + byte(v, at + 1) as usize
}

// How many problems a head names.
pub fn problems(v: &[u8]) -> usize
    ensures { (result ≡ problems v.now) × (result < 65536) }
{
    two(v, 4)
}

// The row from `at` on.
pub fn entry(v: &[u8], at: usize) -> Entry
    requires { at < 4294960000 }
    ensures { (result ≡ entry_at v.now at) × (result.number < 65536) × (result.place < 4294967296) × (result.length < 256) }
{
    let number = two(v, at);
    let edition = byte(v, at + 2);
    let high = two(v, at + 3);
    let low = two(v, at + 5);
    let length = byte(v, at + 7);
    Entry {
        number: number,
        edition: edition,
        place: 65536 * high + low,
        length: length,
    }
}

// Tests `rows` rows that stand in `s` from `at` on: of a table of n rows those from `from` on, the number before them being `last`. Answers the number of the
// last row, or how the first that is not sound fails, how many stand before it, and the number of the last of these.
pub fn walk(
    s: &[u8],
    at: usize,
    rows: usize,
    n: usize,
    from: usize,
    last: usize,
    back: bool,
) -> Result<usize, (Flaw, usize, usize)>
    requires { (at < 65536) × (from + rows ≤ n) × (n < 65536) }
    ensures { WalksTo back n from last s.now at rows result }
{
    let mut before = last;
    for j in 0..rows {
        let e = entry(s, at + 8 * j);
        if let Err(flaw) = tests::row(e, n, from + j, before, back) {
            return Err((flaw, j, before));
        }
        before = e.number;
    }
    Ok(before)
}

// How many of `rows` rows that rise, in `s` from `at` on, have a number below `number`.
pub fn find(s: &[u8], at: usize, rows: usize, number: usize) -> usize
    requires { (at < 65536) × (rows < 65536) × Rising s.now at rows }
    ensures { Bound s.now at rows number result }
{
    let mut low = 0;
    let mut high = rows;
    // The library's `partition_point` takes a slice of elements, and the rows are bytes of the file.
    while low < high {
        let mid = (low + high) / 2;
        let e = entry(s, at + 8 * mid);
        if e.number < number {
            low = mid + 1;
        } else {
            high = mid;
        }
    }
    low
}
