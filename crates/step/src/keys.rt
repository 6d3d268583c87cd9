// The keys of a terminal, cut out of the bytes that it sends.
ghost use Rattle.std.specs.Prelude.{◌≤◌, ◌<◌, length};

// The place behind the key whose first byte stands at `at`. An escape, and a letter beyond ASCII, are sent as several bytes.
pub(super) fn past(read: &[u8], at: usize) -> usize
    requires { at < length read.now }
{
    match read[at] {
        27 => past_escape(read, at + 1),
        128..=255 => skip(read, at + 1, 128, 191),
        _ => at + 1,
    }
}

// What follows an escape: `[` or `O`, numbers and a last byte, as an arrow has them; or one byte.
fn past_escape(read: &[u8], at: usize) -> usize
    requires { at ≤ length read.now }
{
    if at == read.len() {
        return at;
    }
    if !matches!(read[at], b'[' | b'O') {
        return at + 1;
    }
    let last = skip(read, at + 1, 32, 63);
    if last < read.len() { last + 1 } else { last }
}

// The first place from `from` on whose byte is not among those from `low` to `high`.
fn skip(read: &[u8], from: usize, low: u8, high: u8) -> usize
    requires { from ≤ length read.now }
    ensures { result ≤ length read.now }
{
    match read[from..].iter().position(|b| (*b < low) | (*b > high)) {
        Some(n) => from + n,
        None => read.len(),
    }
}
