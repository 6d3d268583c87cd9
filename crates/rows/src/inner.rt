// Sets of slots, the lines above the rows, the rows, and how many bytes they have.
ghost use Rattle.std.specs.Prelude.{◌≡◌, [], ◌++◌, ◌+◌, ◌*◌, ◌≤◌, min, length, take};
ghost use Rattle.io.specs.Counts.{IsPrefixLen};
ghost use Rattle.output.specs.Appending.{Adds};
ghost use Rattle.squares.specs.Members.{concat};
ghost use Rattle.rows.specs.Rows.{uncaptured_letter, mark_byte, fields_by, row_of, is_in, listed_row, strict_row, head_of, checkers_line};
ghost use Rattle.rows.specs.inner.Marked.{marked, Marks, MarksOf, listed_by, strict_by};

use laws::ChessRetraction;

pub fn contains(slots: &[u16], slot: u16) -> bool
    ensures { result ≡ is_in slot slots.now }
{
    slots.contains(&slot)
}

// A slot more in a set of slots, which has a bit for each: 1,024 words hold the 65,536.
fn mark_slot(set: &mut [u64; 1024], slot: u16)
    requires { length set.old ≡ 1024 }
    ensures { Marks set.old slot set.new }
{
    let w = (slot / 64) as usize;
    set[w] |= squares::bit((slot % 64) as u8);
}

// The slots of a list, in a set that was empty.
pub fn mark_all(slots: &[u16], set: &mut [u64; 1024])
    requires { MarksOf [] set.old }
    ensures { MarksOf slots.now set.new }
{
    for &slot in slots {
        mark_slot(set, slot);
    }
}

fn is_marked(set: &[u64; 1024], slot: u16) -> bool
    ensures { result ≡ marked set.now slot }
{
    squares::has(set[(slot / 64) as usize], (slot % 64) as u8)
}

fn uncaptured_letter(u: u8) -> u8
    ensures { result ≡ uncaptured_letter u }
{
    match u {
        1 => b'P',
        2 => b'N',
        3 => b'B',
        4 => b'R',
        5 => b'Q',
        _ => b'.',
    }
}

fn mark(unpromotion: bool) -> u8
    ensures { result ≡ mark_byte unpromotion }
{
    if unpromotion { b'=' } else { b'.' }
}

// The fields of a retraction: source and target, the uncaptured man, the mark.
pub fn fields_of(r: ChessRetraction) -> [u8; 8]
    ensures { result ≡ fields_by r }
{
    let letter = uncaptured_letter(r.uncaptured);
    let mark = mark(r.unpromotion);
    [
        b'a' + r.source % 8,
        b'1' + r.source / 8,
        b'a' + r.target % 8,
        b'1' + r.target / 8,
        b' ',
        letter,
        b' ',
        mark,
    ]
}

// The row of a retraction, with its sign.
fn row(slot: u16, sign: u8) -> [u8; 11]
    ensures { result ≡ row_of slot sign }
{
    let f = fields_of(ChessRetraction::unpack(slot));
    [
        f[0], f[1], f[2], f[3], f[4], f[5], f[6], f[7], b' ', sign, b'\n',
    ]
}

fn put_row(out: &mut [u8], len: usize, slot: u16, sign: u8) -> usize
    ensures { Adds out.old len (row_of slot sign) result out.new }
{
    let bytes = row(slot, sign);
    output::put_bytes(out, len, &bytes).unwrap_or(len)
}

// `+` in both, `-` listed only; the set has the strict ones.
fn put_listed_row(out: &mut [u8], len: usize, slot: u16, strict: &[u64; 1024]) -> usize
    ensures { Adds out.old len (listed_by strict.now slot) result out.new }
{
    if is_marked(strict, slot) {
        return put_row(out, len, slot, b'+');
    }
    put_row(out, len, slot, b'-')
}

// `*` strict only: nothing for one that is listed, as the set says.
fn put_strict_row(out: &mut [u8], len: usize, slot: u16, listed: &[u64; 1024]) -> usize
    ensures { Adds out.old len (strict_by listed.now slot) result out.new }
{
    if is_marked(listed, slot) {
        return len;
    }
    put_row(out, len, slot, b'*')
}

// Each listed retraction, in list order.
pub fn put_listed_by(out: &mut [u8], len: usize, listed: &[u16], strict: &[u64; 1024]) -> usize
    requires { len + length (concat (listed_by strict.now) listed.now) ≤ length out.old }
    ensures { Adds out.old len (concat (listed_by strict.now) listed.now) result out.new }
{
    let mut at = len;
    for &slot in listed {
        at = put_listed_row(out, at, slot, strict);
    }
    at
}

// The same by the strict list.
pub fn put_listed(out: &mut [u8], len: usize, listed: &[u16], strict: &[u16]) -> usize
    requires { len + length (concat (listed_row strict.now) listed.now) ≤ length out.old }
    ensures { Adds out.old len (concat (listed_row strict.now) listed.now) result out.new }
{
    let mut in_strict = [0u64; 1024];
    mark_all(strict, &mut in_strict);
    put_listed_by(out, len, listed, &in_strict)
}

// Each strict retraction that is not listed, in strict order. One function for this and `put_listed_by` would be no plainer: they share the
// walk alone, and it would take a row's sign, or none, for either answer of the set.
pub fn put_strict_by(out: &mut [u8], len: usize, strict: &[u16], listed: &[u64; 1024]) -> usize
    requires { len + length (concat (strict_by listed.now) strict.now) ≤ length out.old }
    ensures { Adds out.old len (concat (strict_by listed.now) strict.now) result out.new }
{
    let mut at = len;
    for &slot in strict {
        at = put_strict_row(out, at, slot, listed);
    }
    at
}

// The same by the list of the listed ones.
pub fn put_strict(out: &mut [u8], len: usize, strict: &[u16], listed: &[u16]) -> usize
    requires { len + length (concat (strict_row listed.now) strict.now) ≤ length out.old }
    ensures { Adds out.old len (concat (strict_row listed.now) strict.now) result out.new }
{
    let mut in_listed = [0u64; 1024];
    mark_all(listed, &mut in_listed);
    put_strict_by(out, len, strict, &in_listed)
}

// How many rows `put_strict_by` writes. A row has 11 bytes.
pub fn count_strict_by(strict: &[u16], listed: &[u64; 1024]) -> usize
    ensures { 11 * result ≡ length (concat (strict_by listed.now) strict.now) }
{
    strict
        .iter()
        .filter(|slot| !is_marked(listed, **slot))
        .count()
}

// The same by the list of the listed ones: how many rows `put_strict` writes.
pub fn count_strict(strict: &[u16], listed: &[u16]) -> usize
    ensures { 11 * result ≡ length (concat (strict_row listed.now) strict.now) }
{
    let mut in_listed = [0u64; 1024];
    mark_all(listed, &mut in_listed);
    count_strict_by(strict, &in_listed)
}

// `listed A strict B`, which 56 bytes hold.
fn put_head(out: &mut [u8; 256], a: u64, b: u64) -> usize
    ensures { IsPrefixLen result out.new × (take result out.new ≡ head_of a b) }
{
    let listed = output::put_bytes(out, 0, b"listed ").unwrap_or(0);
    let first = output::put_decimal(out, listed, a).unwrap_or(listed);
    let strict = output::put_bytes(out, first, b" strict ").unwrap_or(first);
    let second = output::put_decimal(out, strict, b).unwrap_or(strict);
    output::put_bytes(out, second, b"\n").unwrap_or(second)
}

// `listed A strict B` and under it the checkers' line, which 256 bytes hold.
pub fn put_top(out: &mut [u8; 256], a: u64, b: u64, checkers: u64) -> usize
    ensures { IsPrefixLen result out.new × (take result out.new ≡ head_of a b ++ checkers_line checkers) }
{
    let head = put_head(out, a, b);
    let end = square_names::inner::put_squares(out, head, checkers);
    output::put_bytes(out, end, b"\n").unwrap_or(end)
}

// How many bytes a head and a + b rows of 11 bytes have, as far as a usize counts them.
pub fn size(head: usize, a: usize, b: usize) -> usize
    ensures { result ≡ min (head + 11 * a + 11 * b) 18446744073709551615 }
{
    a.saturating_add(b).saturating_mul(11).saturating_add(head)
}
