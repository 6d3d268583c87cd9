// A set with its ranks in the opposite order, or with all of its squares, by exchanges of halves.
ghost use Rattle.std.specs.Prelude.{◌≡◌};
ghost use Rattle.sliding.specs.inner.Seen.{Halves, turn, flipped, mirrored, moved};

// Each square changes places with the one n away; m has the lower of each two.
fn swap(s: u64, m: u64, n: u8) -> u64
    requires { Halves m n }
    ensures { result ≡ moved (turn n) s }
{
    ((s >> n) & m) | ((s & m) << n)
}

// The ranks in the opposite order.
pub(super) fn flip(s: u64) -> u64
    ensures { result ≡ moved flipped s }
{
    let a = swap(s, 0x00ff_00ff_00ff_00ff, 8);
    let b = swap(a, 0x0000_ffff_0000_ffff, 16);
    swap(b, 0x0000_0000_ffff_ffff, 32)
}

// The squares in the opposite order.
pub(super) fn mirror(s: u64) -> u64
    ensures { result ≡ moved mirrored s }
{
    let a = swap(s, 0x5555_5555_5555_5555, 1);
    let b = swap(a, 0x3333_3333_3333_3333, 2);
    let c = swap(b, 0x0f0f_0f0f_0f0f_0f0f, 4);
    flip(c)
}
