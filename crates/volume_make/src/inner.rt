// Head, rows and bodies written into a lent slice.
ghost use Rattle.std.specs.Prelude.{◌≡◌, ◌++◌, ◌+◌, ◌*◌, ◌≤◌, ◌<◌, length, take, drop};
ghost use Rattle.std.proofs.Math.Seq.{paste};
ghost use Rattle.volume_make.specs.inner.Filling.{joined, plain_row, Sized, BodiesIn, Counted, VolumeIn};

use laws::Edition;
use men_field::Line;

// What a line holds goes into `out` from `at` on.
pub fn put(out: &mut [u8], at: usize, l: Line)
    requires { (l.len ≤ 81) × (at + l.len ≤ length out.old) }
    ensures { out.new ≡ paste out.old at l.bytes l.len }
{
    let bytes = l.bytes;
    let n = l.len;
    output::inner::copy(out, at, &bytes, 0, n);
}

// The rows of n problems numbered from 1, of edition A.
fn put_rows(out: &mut [u8], n: usize)
    requires { (n < 65536) × (6 + 8 * n ≤ length out.old) }
    ensures { out.new ≡ take 6 out.old ++ joined (plain_row n) n ++ drop (6 + 8 * n) out.old }
{
    for i in 0..n {
        put(
            out,
            6 + 8 * i,
            volume_contents::inner::row_of(i + 1, Edition::A, 6 + 8 * n + 34 * i),
        );
    }
}

// The bodies of lines that are known to be in form, from `start` on.
fn put_bodies(t: &[u8], out: &mut [u8], start: usize)
    requires { Sized t.now out.old start }
    ensures { BodiesIn t.now out.old start out.new }
{
    let mut at = 0;
    let mut to = start;
    // `at` steps from line to line by where the newline stands, so it counts no index.
    while at < t.len() {
        let stop = chunks::inner::find(t, at, t.len());
        let raw = position_text::inner::read_raw(&t[at..stop], Edition::A);
        put(out, to, volume_body::inner::body_of(raw.position));
        to += 34;
        at = stop + 1;
    }
}

// The whole volume of n lines that are known to be in form.
pub fn write(t: &[u8], out: &mut [u8], n: usize)
    requires { (n < 65536) × Counted t.now out.old n }
    ensures { VolumeIn t.now out.old out.new }
{
    put(out, 0, volume_contents::inner::head_of(n));
    put_rows(out, n);
    put_bodies(t, out, 6 + 8 * n);
}
