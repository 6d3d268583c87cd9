// Sets of squares as bits of a u64: the Rust's `BitBoard`. Squares are numbers from 0, a1, to 63, h8; a number above 63 is no square and
// in no set.
#![tactic(auto)]

ghost use Rattle.std.specs.Prelude.{◌≡◌, cond, eqb};
ghost use Rattle.squares.specs.Squares.{file, rank, has, set_of, only, size, besides, over_one, under_one, left_of_one, right_of_one};
ghost use Rattle.squares.specs.Members.{lowest_of};
ghost use Rattle.squares.specs.Walks.{to_come};
ghost use Rattle.std.specs.Iterator.{YieldsFirst, item_count};

// The set of one square (`BitBoard::from_square`).
pub fn bit(k: u8) -> u64
    ensures { result ≡ only k }
{
    if k < 64 { 1 << k } else { 0 }
}

pub fn has(s: u64, k: u8) -> bool
    ensures { result ≡ has s k }
{
    if k < 64 { (s >> k) % 2 == 1 } else { false }
}

// The lowest member (`to_square`), 64 of the empty set.
pub fn lowest(s: u64) -> u8
    ensures { result ≡ lowest_of s }
{
    u64::trailing_zeros(s) as u8
}

// How many members there are (`popcnt`).
pub fn count(s: u64) -> u32
    ensures { result ≡ size s }
{
    u64::count_ones(s)
}

pub fn without(s: u64, k: u8) -> u64
    ensures { result ≡ set_of (besides s k) }
{
    s & !bit(k)
}

// The members of a set one by one, the lowest first, as the Rust's `for k in set`.
#[derive(Drop)]
pub struct Walk {
    left: u64,
}

pub fn each(s: u64) -> Walk
    ensures { result.left ≡ s }
{
    Walk { left: s }
}

impl Iterator for Walk {
    type Item = u8;

    ghost next_gives = { YieldsFirst to_come };

    ghost remaining = { item_count to_come };

    fn next(&mut self) -> Option<u8> {
        let left = self.left;
        if left == 0 {
            return None;
        }
        let k = lowest(left);
        self.left = without(left, k);
        Some(k)
    }
}

// One of two sets.
pub fn choose(c: bool, a: u64, b: u64) -> u64
    ensures { result ≡ cond c a b }
{
    if c { a } else { b }
}

// The squares of a rank, counted from 0; none for a rank above 7.
pub fn get_rank(r: u8) -> u64
    ensures { result ≡ set_of (λ k. eqb (rank k) r) }
{
    if r < 8 { 0xff << (r * 8) } else { 0 }
}

// The squares of a file, counted from 0; none for a file above 7.
pub fn get_file(f: u8) -> u64
    ensures { result ≡ set_of (λ k. eqb (file k) f) }
{
    if f < 8 { 0x0101_0101_0101_0101 << f } else { 0 }
}

// Every member one step on; those at the edge drop off and none comes round on the other side.
pub fn up(s: u64) -> u64
    ensures { result ≡ set_of (over_one s) }
{
    s << 8
}

pub fn down(s: u64) -> u64
    ensures { result ≡ set_of (under_one s) }
{
    s >> 8
}

pub fn left(s: u64) -> u64
    ensures { result ≡ set_of (left_of_one s) }
{
    (s & 0xfefe_fefe_fefe_fefe) >> 1
}

pub fn right(s: u64) -> u64
    ensures { result ≡ set_of (right_of_one s) }
{
    (s & 0x7f7f_7f7f_7f7f_7f7f) << 1
}
