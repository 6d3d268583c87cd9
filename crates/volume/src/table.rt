// A volume's head and table of contents: 17.
ghost use Rattle.std.specs.Prelude.{◌+◌, ◌≤◌};
ghost use Rattle.volume_contents.specs.inner.Walks.{Rising};

use super::answers::Fault;
use super::file::File;
use volume_contents::Why;

// How many problems a volume has, or how its head fails.
pub(super) fn head(f: &File, chunk: &mut [u8; 65536]) -> Result<u16, Fault> {
    let n = f.size.min(6);
    f.fill(0, chunk, n)?;
    let bytes = &chunk[..n];
    match volume_contents::inner::tests::head(bytes, f.size) {
        Err(w) => Err(Fault::Refused(Why::Contents(w, 0))),
        Ok(()) => Ok(volume_contents::inner::problems(bytes) as u16),
    }
}

// A row, counted from 0, and its edition.
#[derive(Clone, Copy)]
pub struct Found {
    pub row: u16,
    pub edition: u8,
}

// Tests the rows, and looks for the one with the number; `back` is on the way to lines.
pub(super) fn walk(
    f: &File,
    n: u16,
    back: bool,
    number: usize,
    rows: &mut [u8; 65536],
) -> Result<Option<Found>, Fault> {
    let all = n as usize;
    let mut found = None;
    let mut last = 0;
    for i in (0..all).step_by(8192) {
        let k = (all - i).min(8192);
        f.fill(6 + 8 * i, rows, 8 * k)?;
        last = match volume_contents::inner::walk(rows, 0, k, all, i, last, back) {
            Ok(of_last) => of_last,
            Err((flaw, row, _)) => {
                return Err(Fault::Refused(Why::Contents(flaw, i + row + 1)));
            }
        };
        found = find(rows, k, i, number).or(found);
    }
    Ok(found)
}

// The row with the number among k rows, behind `before` others.
fn find(rows: &[u8; 65536], k: usize, before: usize, number: usize) -> Option<Found>
    requires { (k ≤ 8192) × (before + k ≤ 65535) × Rising rows.now 0 k }
{
    let r = volume_contents::inner::find(rows, 0, k, number);
    if r == k {
        return None;
    }
    let e = volume_contents::inner::entry(rows, 8 * r);
    if e.number != number {
        return None;
    }
    Some(Found {
        row: (before + r) as u16,
        edition: e.edition,
    })
}
