// The cut at a last space, the counters, and the square passed over and the pawn's own.
ghost use Rattle.std.specs.Prelude.{◌≡◌, ◌≤◌, length};
ghost use Rattle.record_fields.specs.Counters.{in_range};
ghost use Rattle.record_fields.specs.Passed.{passed_state, is_known};
ghost use Rattle.record_fields.specs.inner.Counting.{Counted, count_step};
ghost use Rattle.record_fields.specs.inner.Splitting.{Cut};
ghost use Rattle.record_fields.specs.inner.Pawns.{pawn_state};

use laws::EnPassantFlag;

// The place behind the last space before `n`, or 0.
pub fn last(t: &[u8], n: usize) -> usize
    requires { n ≤ length t.now }
    ensures { Cut t.now n result }
{
    match t[..n].iter().rposition(|b| *b == b' ') {
        Some(i) => i + 1,
        None => 0,
    }
}

// One more byte of a counter, of which `s` was read: 10,001 stands for no byte yet, 10,002 for no counter.
#[tactic(auto, using(crate::proofs::Decimals::step_zero))]
fn count_step(s: u16, b: u8) -> u16
    requires { s ≤ 10002 }
    ensures { (result ≡ count_step s b) × (result ≤ 10002) }
{
    if s == 10002 {
        return 10002;
    }
    if b < b'0' {
        return 10002;
    }
    if b'9' < b {
        return 10002;
    }
    let d = (b - b'0') as u32;
    if s == 10001 {
        return d as u16;
    }
    if s == 0 {
        return 10002;
    }
    (10 * s as u32 + d).min(10000) as u16
}

// The value of a counter, 10,000 where it is larger, however many digits it has, and more than that where there is no counter.
pub fn count(t: &[u8]) -> u16
    ensures { Counted t.now result }
{
    let mut s = 10001;
    for &b in t {
        s = count_step(s, b);
    }
    s
}

pub fn in_range(half: u16, full: u16) -> bool
    ensures { result ≡ in_range half full }
{
    (half <= 9999) & (1 <= full) & (full <= 9999)
}

pub fn is_known(e: EnPassantFlag) -> bool
    ensures { result ≡ is_known e }
{
    !matches!(e, EnPassantFlag::Any)
}

// The state of the pawn that passed over a square; unknown where no pawn did.
pub fn pawn_state(e: EnPassantFlag) -> EnPassantFlag
    ensures { result ≡ pawn_state e }
{
    match e {
        EnPassantFlag::Any => EnPassantFlag::Any,
        EnPassantFlag::None => EnPassantFlag::None,
        EnPassantFlag::Some(q) => {
            if q / 8 == 2 {
                return EnPassantFlag::Some(q + 8);
            }
            if q / 8 == 5 {
                return EnPassantFlag::Some(q - 8);
            }
            EnPassantFlag::Any
        }
    }
}

// The state with the square passed over for the pawn's own.
pub fn passed_state(e: EnPassantFlag) -> EnPassantFlag
    ensures { result ≡ passed_state e }
{
    match e {
        EnPassantFlag::Any => EnPassantFlag::Any,
        EnPassantFlag::None => EnPassantFlag::None,
        EnPassantFlag::Some(s) => {
            if s < 32 {
                return EnPassantFlag::Some(16 + s % 8);
            }
            EnPassantFlag::Some(40 + s % 8)
        }
    }
}
