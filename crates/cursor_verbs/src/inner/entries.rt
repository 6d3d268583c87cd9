// The masks and the entries of a cursor, put into an answer.
ghost use Rattle.puts.specs.inner.Growing.{Grows};

use refusal::Refusal;
use retraction_gen::RetractionGen;
use retraction_list::{SourceAndTargets, UnCaptureKind};

pub(super) fn put_made(made: Result<RetractionGen, Refusal>, out: &mut [u8; 65536]) -> usize
    ensures { Grows 0 result }
{
    match made {
        Ok(g) => put_cursor(g, out),
        Err(r) => puts::inner::refused(r, out),
    }
}

// The masks, then each entry.
fn put_cursor(g: RetractionGen, out: &mut [u8; 65536]) -> usize
    ensures { Grows 0 result }
{
    let masks = g.masks;
    let entries = g.entries;
    let mut n = puts::inner::sets(out, 0, masks);
    for e in entries.iter().take(g.len) {
        n = put_entry(*e, out, n);
    }
    n
}

// ` square:targets:kind:mark`
fn put_entry(e: SourceAndTargets, out: &mut [u8; 65536], len: usize) -> usize
    ensures { Grows len result }
{
    let name = [b' ', b'a' + e.source % 8, b'1' + e.source / 8];
    let a = puts::inner::bytes(out, len, &name);
    put_rest(e, out, a)
}

// `:targets:kind:mark`
pub(super) fn put_rest(e: SourceAndTargets, out: &mut [u8; 65536], len: usize) -> usize
    ensures { Grows len result }
{
    let a = puts::inner::bytes(out, len, b":");
    let b = puts::inner::set(out, a, e.targets);
    let kind = e.kind;
    let end = [b':', letter(kind), b':', mark(e.unpromotion)];
    puts::inner::bytes(out, b, &end)
}

fn letter(kind: UnCaptureKind) -> u8 {
    match kind {
        UnCaptureKind::Optional => b'O',
        UnCaptureKind::Necessary => b'N',
        UnCaptureKind::Forbidden => b'F',
        UnCaptureKind::UnEnPassant => b'E',
    }
}

fn mark(unpromotion: bool) -> u8 {
    if unpromotion { b'=' } else { b'.' }
}

pub(super) fn put_masks(masks: Result<[u64; 6], Refusal>, out: &mut [u8; 65536]) -> usize
    ensures { Grows 0 result }
{
    match masks {
        Ok(masks) => puts::inner::sets(out, 0, masks),
        Err(r) => puts::inner::refused(r, out),
    }
}
