// 17 CONTENTS: the tests of a head and of a row, one behind the other; the first that fails is told.
ghost use Rattle.std.specs.Prelude.{◌≡◌, ◌<◌, Ok};
ghost use Rattle.volume_contents.specs.Contents.{unless, head_tested, row_tested};

use crate::{Entry, Flaw};

// A test, and what is told if it fails.
fn unless(passes: bool, flaw: Flaw) -> Result<(), Flaw>
    ensures { result ≡ unless passes flaw (Ok tt) }
{
    if passes { Ok(()) } else { Err(flaw) }
}

// The head of a file of `size` bytes, of which `v` has at least the first six, or all where there are fewer.
pub fn head(v: &[u8], size: usize) -> Result<(), Flaw>
    ensures { result ≡ head_tested v.now size }
{
    let marked = (super::byte(v, 0) == b'V')
        & (super::byte(v, 1) == b'O')
        & (super::byte(v, 2) == b'L');
    let version = super::byte(v, 3) == 1;
    let sized = size == 6 + 42 * super::two(v, 4);
    unless(marked, Flaw::Mark)?;
    unless(version, Flaw::Version)?;
    unless(sized, Flaw::Size)
}

// The row i of n, the number before it being `last`. `back` asks, too, whether it is a row of old lines.
pub fn row(e: Entry, n: usize, i: usize, last: usize, back: bool) -> Result<(), Flaw>
    requires { (e.place < 4294967296) × (e.length < 256) × (n < 65536) × (i < n) }
    ensures { result ≡ row_tested back n i last e }
{
    let start = 6 + 8 * n + 34 * i;
    let named = (e.edition == b'A') | (e.edition == b'B');
    let inside = e.place + e.length as usize <= 6 + 42 * n;
    unless(0 < e.number, Flaw::Number)?;
    unless(named, Flaw::Edition)?;
    unless(e.length == 34, Flaw::Length)?;
    unless(last < e.number, Flaw::Order)?;
    unless(inside, Flaw::Outside)?;
    unless(start <= e.place, Flaw::Overlap)?;
    unless(e.place <= start, Flaw::Gap)?;
    unless(!back | (e.number == i + 1), Flaw::Place)?;
    unless(!back | (e.edition == b'A'), Flaw::EditionB)
}
