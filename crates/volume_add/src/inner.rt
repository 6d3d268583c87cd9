// The tests of the new problem, and the longer volume written.
ghost use Rattle.std.specs.Prelude.{◌≡◌, ◌++◌, ◌+◌, ◌*◌, ◌≤◌, ◌<◌, length, take, drop};
ghost use Rattle.volume_contents.specs.Layout.{size_of};
ghost use Rattle.volume_contents.specs.Contents.{number_before};
ghost use Rattle.volume_make.specs.inner.Filling.{joined};
ghost use Rattle.volume_add.specs.Adding.{number_tested};
ghost use Rattle.volume_add.specs.inner.Longer.{carried, longer, AddsTo};

use laws::Position;
use volume_contents::{Flaw, Why};
use volume_make::inner::put;

// The number of the last of n rows, 0 where there is none.
fn last(v: &[u8], n: usize) -> usize
    requires { n < 65536 }
    ensures { result ≡ number_before v.now n }
{
    if n == 0 {
        return 0;
    }
    let row = volume_contents::inner::entry(v, 6 + 8 * (n - 1));
    row.number
}

// The tests of a new number behind the last one.
fn test_number(last: usize, k: usize) -> Result<(), Flaw>
    ensures { result ≡ number_tested last k }
{
    if (0 < k) & (k <= 65535) {
        if last < k {
            return Ok(());
        }
        return Err(Flaw::Order);
    }
    Err(Flaw::Number)
}

// The n rows of a volume that becomes one problem longer.
fn put_rows(v: &[u8], out: &mut [u8], n: usize)
    requires { (n < 65536) × (6 + 8 * n ≤ length out.old) }
    ensures { out.new ≡ take 6 out.old ++ joined (carried v.now n) n ++ drop (6 + 8 * n) out.old }
{
    for i in 0..n {
        let row = volume_contents::inner::entry(v, 6 + 8 * i);
        let edition = volume_contents::inner::edition_of(row.edition);
        put(
            out,
            6 + 8 * i,
            volume_contents::inner::row_of(row.number, edition, 14 + 8 * n + 34 * i),
        );
    }
}

// The longer volume.
fn write(v: &[u8], n: usize, number: usize, board: Position, out: &mut [u8])
    requires { (n < 65536) × (length v.now ≡ size_of n) × (48 + 42 * n ≤ length out.old) }
    ensures { out.new ≡ longer v.now n number board ++ drop (48 + 42 * n) out.old }
{
    put(out, 0, volume_contents::inner::head_of(n + 1));
    put_rows(v, out, n);
    let terms = board.terms;
    let edition = terms.edition;
    put(
        out,
        6 + 8 * n,
        volume_contents::inner::row_of(number, edition, 14 + 42 * n),
    );
    output::inner::copy(out, 14 + 8 * n, v, 6 + 8 * n, 34 * n);
    put(out, 14 + 42 * n, volume_body::inner::body_of(board));
}

// The volume as it is has passed: 17 for the number, 1 to 6 for the board, 13.
pub fn add_to(
    v: &[u8],
    n: usize,
    number: usize,
    board: Position,
    out: &mut [u8],
) -> Result<usize, Why>
    requires { (n < 65536) × (length v.now ≡ size_of n) }
    ensures { AddsTo v.now n number board out.old result out.new }
{
    if let Err(flaw) = test_number(last(v, n), number) {
        return Err(Why::Contents(flaw, n + 1));
    }
    if let Err(w) = accept::inner::judge(board) {
        return Err(Why::Board(w, n + 1));
    }
    let need = 48 + 42 * n;
    if out.len() < need {
        return Err(Why::Room(need));
    }
    write(v, n, number, board, out);
    Ok(need)
}
