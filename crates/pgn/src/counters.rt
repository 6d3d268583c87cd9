// The two counters of a text that is sent out: decimal numbers up to 65,535 without leading zeros.
ghost use Rattle.std.specs.Prelude.{◌≤◌};

// The counter at a place, up to the next space; 65,536 where none stands there.
pub(super) fn at(line: &[u8], from: usize) -> u32
    ensures { result ≤ 65536 }
{
    let end = fields::inner::stop(line, from, b' ');
    let mut x = 65536u32;
    for i in from..end {
        x = with_byte(x, i == from, fields::inner::byte(line, i));
    }
    x
}

// One more byte of a counter, or its first.
fn with_byte(x: u32, first: bool, b: u8) -> u32
    requires { x ≤ 65536 }
    ensures { result ≤ 65536 }
{
    if b < b'0' {
        return 65536;
    }
    if b'9' < b {
        return 65536;
    }
    let d = (b - b'0') as u32;
    if first {
        return d;
    }
    if x == 0 {
        return 65536;
    }
    (x * 10 + d).min(65536)
}
