// The test for room, and a copy into a buffer.
ghost use Rattle.std.specs.Prelude.{◌≡◌, ◌+◌, ◌≤◌, leb, length, drop};
ghost use Rattle.std.proofs.Math.Seq.{paste};

// n bytes of `src` go into `out` from `at` on.
pub fn copy(out: &mut [u8], at: usize, src: &[u8], from: usize, n: usize)
    requires { (at + n ≤ length out.old) × (from + n ≤ length src.now) }
    ensures { out.new ≡ paste out.old at (drop from src.now) n }
{
    out[at..at + n].copy_from_slice(&src[from..from + n]);
}

// Whether n bytes have room behind the first `len` of `have`. It subtracts, as the sum need not fit.
pub fn has_room(have: usize, len: usize, n: usize) -> bool
    ensures { result ≡ leb (len + n) have }
{
    len <= have && n <= have - len
}
