// Old lines to a volume.
ghost use Rattle.std.specs.Prelude.{◌≤◌, length};

use super::answers::Fault;
use super::bodies;
use super::clock::Clock;
use super::file::File;
use super::sink::Sink;
use laws::Edition;
use std::io::Write;
use std::time;
use volume_contents::{Flaw, Why};
use volume_lines::Named;

// The first pass: 14 over all lines, then 17, then 1 to 6. Where no line in form starts a chunk, what does is out of form, too long or without its newline.
pub(super) fn survey(
    f: &File,
    chunk: &mut [u8; 65536],
    clock: &mut Clock<impl time::Clock + Eprint>,
) -> Result<u16, Fault> {
    let mut named = volume_lines::inner::unrefused();
    let mut count = 0;
    let mut at = 0;
    // No `for`: the next chunk begins behind the last line that this one has whole.
    while at < f.size {
        let n = (f.size - at).min(65536);
        f.fill(at, chunk, n)?;
        let s = volume_lines::inner::survey(&chunk[..n], count, named);
        count = s.count;
        if s.at == 0 {
            return Err(Fault::Refused(Why::Line(count + 1)));
        }
        named = s.named;
        at += s.at;
        clock.tick(count);
    }
    verdict(count, named)
}

fn verdict(count: usize, named: Named) -> Result<u16, Fault> {
    if count > 65535 {
        return Err(Fault::Refused(Why::Contents(Flaw::Many, 65536)));
    }
    match named.verdict {
        Err(r) => Err(Fault::Refused(Why::Board(r, named.line))),
        Ok(()) => Ok(count as u16),
    }
}

// The second pass: the head, the rows and the bodies.
pub(super) fn put_all<W: Write>(
    f: &File,
    n: u16,
    chunk: &mut [u8; 65536],
    sink: &mut Sink<W>,
    clock: &mut Clock<impl time::Clock + Eprint>,
) -> Result<(), Fault>
    requires { sink.old.len ≤ 65536 }
    ensures { sink.new.len ≤ 65536 }
{
    put_table(sink, n as usize);
    put_bodies(f, n, chunk, sink, clock)
}

fn put_table<W: Write>(sink: &mut Sink<W>, n: usize)
    requires { (sink.old.len ≤ 65536) × (n ≤ 65535) }
    ensures { sink.new.len ≤ 65536 }
{
    sink.put_line(volume_contents::inner::head_of(n));
    for i in 0..n {
        let row = volume_contents::inner::row_of(i + 1, Edition::A, 6 + 8 * n + 34 * i);
        sink.put_line(row);
    }
}

// The lines are read again, and have to be what they were.
fn put_bodies<W: Write>(
    f: &File,
    n: u16,
    chunk: &mut [u8; 65536],
    sink: &mut Sink<W>,
    clock: &mut Clock<impl time::Clock + Eprint>,
) -> Result<(), Fault>
    requires { sink.old.len ≤ 65536 }
    ensures { sink.new.len ≤ 65536 }
{
    let mut count = 0;
    let mut at = 0;
    // No `for`: the next chunk begins behind the last line that this one has whole.
    while at < f.size {
        let len = (f.size - at).min(65536);
        f.fill(at, chunk, len)?;
        let t = put_some(&chunk[..len], sink);
        if t.at == 0 {
            return Err(Fault::Changed);
        }
        count += t.count;
        at += t.at;
        clock.tick(count);
    }
    f.same(n, count)
}

// Lines whose bodies are written: the place behind them, and how many.
#[derive(Clone, Copy)]
struct Taken {
    at: usize,
    count: usize,
}

// The lines that end in `t`, up to the first that is refused.
fn put_some<W: Write>(t: &[u8], sink: &mut Sink<W>) -> Taken
    requires { sink.old.len ≤ 65536 }
    ensures { (result.at ≤ length t.now) × (result.count ≤ result.at) × (sink.new.len ≤ 65536) }
{
    let mut count = 0;
    let mut at = 0;
    // No `for`: `at` goes from line to line.
    while at < t.len() {
        let stop = chunks::inner::find(t, at, t.len());
        if stop == t.len() {
            break;
        }
        let raw = position_text::inner::read_raw(&t[at..stop], Edition::A);
        if !bodies::is_sound(raw) {
            break;
        }
        sink.put_line(volume_body::inner::body_of(raw.position));
        count += 1;
        at = stop + 1;
    }
    Taken { at, count }
}
