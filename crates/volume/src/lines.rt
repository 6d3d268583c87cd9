// A volume to old lines: the pass that writes.
ghost use Rattle.std.specs.Prelude.{◌≤◌};

use super::answers::Fault;
use super::bodies;
use super::clock::Clock;
use super::file::File;
use super::sink::Sink;
use laws::Edition;
use std::io::Write;
use std::time;

// The second pass. The bodies are read again, and have to be what they were.
pub(super) fn put_all<W: Write>(
    f: &File,
    n: u16,
    chunk: &mut [u8; 65536],
    sink: &mut Sink<W>,
    clock: &mut Clock<impl time::Clock + Eprint>,
) -> Result<(), Fault>
    requires { sink.old.len ≤ 65536 }
    ensures { sink.new.len ≤ 65536 }
{
    let all = n as usize;
    for i in (0..all).step_by(1024) {
        let k = (all - i).min(1024);
        f.fill(6 + 8 * all + 34 * i, chunk, 34 * k)?;
        put_some(chunk, k, sink)?;
        clock.tick(i + k);
    }
    f.same(n, all)
}

// The lines of k bodies, up to the first that is refused.
fn put_some<W: Write>(bodies: &[u8; 65536], k: usize, sink: &mut Sink<W>) -> Result<(), Fault>
    requires { (k ≤ 1024) × (sink.old.len ≤ 65536) }
    ensures { sink.new.len ≤ 65536 }
{
    for j in 0..k {
        let at = 34 * j;
        let raw = volume_body::inner::read_body(&bodies[at..at + 34], Edition::A);
        if !bodies::is_sound(raw) {
            return Err(Fault::Changed);
        }
        sink.put_line(position_text::inner::line_of(raw.position));
        sink.put(b"\n");
    }
    Ok(())
}
