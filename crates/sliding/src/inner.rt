// Sliding attacks from a line and the occupied set: a subtraction that borrows past the top on purpose finds the squares upwards, and the
// same on the mirrored set those downwards.
ghost use Rattle.std.specs.Prelude.{◌≡◌, ◌<◌, bit_and};
ghost use Rattle.squares.specs.Tests.{◌and◌};
ghost use Rattle.squares.specs.Squares.{has, set_of};
ghost use Rattle.geometry.specs.Lines.{straight, diagonal, aligned, free};
ghost use Rattle.geometry.specs.Steps.{reaches};
ghost use Rattle.sliding.specs.inner.Seen.{flipped, mirrored, opens, seen};

pub mod lines; // inner/lines.rt: the lines of a square and of two squares
mod mirrors; // inner/mirrors.rt: a set with its ranks, or its squares, in the opposite order

// The squares above sq up to the first member of s and with it: the subtraction turns over the digits from there up to the first that
// it can borrow from, or all of them, past the top.
fn above(s: u64, sq: u8) -> u64
    requires { sq < 64 }
    ensures { result ≡ set_of (opens sq s) }
{
    std::num::wrapping_sub_u64(s, squares::bit(sq) << 1) ^ s
}

// The squares of the line m that sq sees past members of occ, once upwards and once mirrored: on a rank.
fn sideways(m: u64, sq: u8, occ: u64) -> u64
    requires { sq < 64 }
    ensures { result ≡ set_of (λ k. has m k and seen mirrored sq (bit_and occ m) k) }
{
    let o = occ & m;
    let turned = mirrors::mirror(o);
    let right = above(o, sq);
    let left = mirrors::mirror(above(turned, 63 - sq));
    (right | left) & m
}

// The same on a file or a diagonal, where it is enough to turn the ranks round.
fn upright(m: u64, sq: u8, occ: u64) -> u64
    requires { sq < 64 }
    ensures { result ≡ set_of (λ k. has m k and seen flipped sq (bit_and occ m) k) }
{
    let o = occ & m;
    let turned = mirrors::flip(o);
    let up = above(o, sq);
    let down = mirrors::flip(above(turned, sq ^ 56));
    (up | down) & m
}

pub fn get_rook_moves(sq: u8, occ: u64) -> u64
    requires { sq < 64 }
    ensures { result ≡ set_of (reaches straight (free occ) sq) }
{
    sideways(squares::get_rank(sq / 8), sq, occ) | upright(squares::get_file(sq % 8), sq, occ)
}

pub fn get_bishop_moves(sq: u8, occ: u64) -> u64
    requires { sq < 64 }
    ensures { result ≡ set_of (reaches diagonal (free occ) sq) }
{
    upright(lines::rising(sq), sq, occ) | upright(lines::falling(sq), sq, occ)
}

pub fn get_queen_moves(sq: u8, occ: u64) -> u64
    requires { sq < 64 }
    ensures { result ≡ set_of (reaches aligned (free occ) sq) }
{
    get_rook_moves(sq, occ) | get_bishop_moves(sq, occ)
}
