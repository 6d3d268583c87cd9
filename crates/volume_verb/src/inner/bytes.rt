// Bytes in hexadecimal, two digits each, the high one first; `-` for none.
ghost use Rattle.std.specs.Prelude.{◌≤◌};
ghost use Rattle.puts.specs.inner.Growing.{Grows};

// The bytes of the field at a place go into `room`; answers how many there are. Two digits are read at a time, of either case, up to the first two bytes
// that are not both digits, or the last byte that has room: what stands behind is not read. So `-` is no bytes, a last digit alone is none, and any other
// byte ends the field.
pub(super) fn read(line: &[u8], at: usize, room: &mut [u8; 16384]) -> usize
    ensures { result ≤ 16384 }
{
    let field = fields::inner::text(line, at);
    for (n, byte) in room.iter_mut().enumerate() {
        let high = digit(fields::inner::byte(field, 2 * n));
        let low = digit(fields::inner::byte(field, 2 * n + 1));
        if high > 15 || low > 15 {
            return n;
        }
        *byte = (16 * high + low) as u8;
    }
    room.len()
}

// The first n bytes, which were read.
pub(super) fn first(room: &[u8; 16384], n: usize) -> &[u8]
    requires { n ≤ 16384 }
{
    let all: &[u8] = room;
    &all[..n]
}

// What a digit of either case stands for, 16 for any other byte.
fn digit(b: u8) -> u64 {
    match b {
        b'A'..=b'F' => digits::hex_digit(b + 32),
        _ => digits::hex_digit(b),
    }
}

// The first n bytes of a slice, none where it has fewer.
pub(super) fn put_front(slice: &[u8], n: usize, out: &mut [u8; 65536]) -> usize
    ensures { Grows 0 result }
{
    if n > slice.len() {
        return put(b"", out);
    }
    put(&slice[..n], out)
}

fn put(bytes: &[u8], out: &mut [u8; 65536]) -> usize
    ensures { Grows 0 result }
{
    if bytes.is_empty() {
        return puts::inner::bytes(out, 0, b"-");
    }
    let mut len = 0;
    for b in bytes {
        len = put_byte(*b, out, len);
    }
    len
}

fn put_byte(b: u8, out: &mut [u8; 65536], len: usize) -> usize
    ensures { Grows len result }
{
    let mut text = [0u8; 16];
    let k = io::hex(b as u64, 2, &mut text);
    puts::inner::bytes(out, len, &text[..k])
}
