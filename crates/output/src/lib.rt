// Bytes put behind those of a buffer that are in use, all or none: what programs put their answers together with.
#![tactic(auto)]

ghost use Rattle.io.specs.Digits.{last_digits};
ghost use Rattle.output.specs.Appending.{Puts, PutsDecimal};

pub mod inner; // inner.rt: the test for room, and a copy into a buffer

// Bytes behind the first `len` of a buffer, all or none: how many of its bytes are then in use, or, where it has no room for them, how many it needs.
pub fn put_bytes(out: &mut [u8], len: usize, bytes: &[u8]) -> Result<usize, usize>
    ensures { Puts out.old len bytes.now result out.new }
{
    let n = bytes.len();
    if !inner::has_room(out.len(), len, n) {
        return Err(n);
    }
    inner::copy(out, len, bytes, 0, n);
    Ok(len + n)
}

// The sixteen hexadecimal digits of a number.
pub fn put_hex16(out: &mut [u8], len: usize, x: u64) -> Result<usize, usize>
    ensures { Puts out.old len (last_digits 16 16 x) result out.new }
{
    let mut text = [0u8; 16];
    let k = io::hex(x, 16, &mut text);
    put_bytes(out, len, &text[..k])
}

// The decimal digits of a number.
pub fn put_decimal(out: &mut [u8], len: usize, x: u64) -> Result<usize, usize>
    ensures { PutsDecimal out.old len x result out.new }
{
    let mut text = [0u8; 20];
    let k = io::decimal(x, &mut text);
    put_bytes(out, len, &text[..k])
}
