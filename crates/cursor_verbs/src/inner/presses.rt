// Any value of the cursor, read from a question's fields, pressed once and put.
ghost use Rattle.puts.specs.inner.Growing.{Grows};

use laws::ChessRetraction;
use super::entries;
use retraction_gen::RetractionGen;
use retraction_list::{SourceAndTargets, UnCaptureKind};

// `cursor TAB len index uncaptured m0 .. m5 place:source:targets:kind:mark ..`: what one press yields, and the cursor after it.
// `press` has the same field and lends the cursor.
pub(super) fn press(lent: bool, line: &[u8], out: &mut [u8; 65536]) -> usize
    ensures { Grows 0 result }
{
    let at = fields::inner::after(line, 0, b'\t');
    let g = read(line, at);
    let s = super::moved_on(lent, g);
    let answer = s.next;
    let n = put_yield(answer, out);
    let after = s.cursor;
    put_fields(after, out, n)
}

fn put_fields(g: RetractionGen, out: &mut [u8; 65536], len: usize) -> usize
    ensures { Grows len result }
{
    let a = puts::inner::next_number(out, len, g.len as u64);
    let b = puts::inner::next_number(out, a, g.index as u64);
    let c = puts::inner::next_number(out, b, g.uncaptured as u64);
    let d = puts::inner::bytes(out, c, b" ");
    let masks = g.masks;
    let e = puts::inner::sets(out, d, masks);
    put_places(g, out, e)
}

fn read(line: &[u8], at: usize) -> RetractionGen {
    let index = fields::inner::after(line, at, b' ');
    let uncaptured = fields::inner::after(line, index, b' ');
    let masks = fields::inner::after(line, uncaptured, b' ');
    let sets = fields::inner::sets(line, masks);
    let entries = read_entries(line, fields::inner::past(line, masks, b' ', 6));
    RetractionGen {
        entries,
        len: fields::inner::number(line, at) as usize,
        index: fields::inner::number(line, index) as usize,
        uncaptured: fields::inner::decimal(line, uncaptured),
        masks: sets,
    }
}

// Places that are not named have the empty entry.
fn read_entries(line: &[u8], from: usize) -> [SourceAndTargets; 47] {
    let none = SourceAndTargets {
        source: 0,
        targets: 0,
        kind: UnCaptureKind::Optional,
        unpromotion: false,
    };
    let mut entries = [none; 47];
    let mut at = from;
    for _ in 0..47 {
        let place = place_at(line, at);
        if place < 47 {
            entries[place] = read_entry(line, at);
        }
        at = fields::inner::after(line, at, b' ');
    }
    entries
}

// The place that an entry names; 255 at the line's end.
fn place_at(line: &[u8], at: usize) -> usize {
    if at < line.len() {
        fields::inner::decimal(line, at) as usize
    } else {
        255
    }
}

// `place:source:targets:kind:mark`
fn read_entry(line: &[u8], at: usize) -> SourceAndTargets {
    let source = fields::inner::after(line, at, b':');
    let targets = fields::inner::after(line, source, b':');
    let kind = fields::inner::after(line, targets, b':');
    let mark = fields::inner::after(line, kind, b':');
    SourceAndTargets {
        source: fields::inner::decimal(line, source),
        targets: fields::inner::hex(line, targets),
        kind: kind_of(fields::inner::byte(line, kind)),
        unpromotion: fields::inner::byte(line, mark) == b'=',
    }
}

fn kind_of(letter: u8) -> UnCaptureKind {
    match letter {
        b'N' => UnCaptureKind::Necessary,
        b'F' => UnCaptureKind::Forbidden,
        b'E' => UnCaptureKind::UnEnPassant,
        _ => UnCaptureKind::Optional,
    }
}

// `source,target,uncaptured,mark` or `end`
fn put_yield(answer: Option<ChessRetraction>, out: &mut [u8; 65536]) -> usize
    ensures { Grows 0 result }
{
    match answer {
        None => puts::inner::bytes(out, 0, b"end"),
        Some(r) => {
            let s = puts::inner::number(out, 0, r.source as u64);
            let t = put_part(out, s, r.target);
            let u = put_part(out, t, r.uncaptured);
            put_part(out, u, r.unpromotion as u8)
        }
    }
}

fn put_part(out: &mut [u8; 65536], len: usize, x: u8) -> usize
    ensures { Grows len result }
{
    let a = puts::inner::bytes(out, len, b",");
    puts::inner::number(out, a, x as u64)
}

// Every place that has another entry than the empty one.
fn put_places(g: RetractionGen, out: &mut [u8; 65536], len: usize) -> usize
    ensures { Grows len result }
{
    let entries = g.entries;
    let mut n = len;
    for (i, e) in entries.iter().enumerate() {
        n = put_place(i, *e, out, n);
    }
    n
}

fn put_place(place: usize, e: SourceAndTargets, out: &mut [u8; 65536], len: usize) -> usize
    ensures { Grows len result }
{
    let optional = matches!(e.kind, UnCaptureKind::Optional);
    if e.source == 0 && e.targets == 0 && optional && !e.unpromotion {
        return len;
    }
    let a = puts::inner::next_number(out, len, place as u64);
    let b = puts::inner::bytes(out, a, b":");
    let c = puts::inner::number(out, b, e.source as u64);
    entries::put_rest(e, out, c)
}
