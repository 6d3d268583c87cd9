// The line that is cut out of what was read.
ghost use Rattle.std.specs.Prelude.{◌≡◌, cond, ◌+◌, ◌-◌, ◌≤◌, ltb, length};
ghost use Rattle.chunks.specs.declared.Ending.TheVariants.{Newline};
ghost use Rattle.chunks.specs.Newlines.{stop_from};
ghost use Rattle.chunks.specs.inner.Splitting.{Fit, Cuts};

use super::{Ending, Part};

// The place of the first newline from `at` on, or `end`.
#[tactic(auto, using(crate::proofs::Cuts::stop_here, crate::proofs::Cuts::stop_later, crate::proofs::Cuts::stop_end))]
pub fn find(s: &[u8], at: usize, end: usize) -> usize
    requires { (at ≤ end) × (end ≤ length s.now) }
    ensures { (result ≡ stop_from s.now at (end - at)) × (at ≤ result) × (result ≤ end) }
{
    for i in at..end {
        if s[i] == b'\n' {
            return i;
        }
    }
    end
}

// The place past a newline at `stop`, or the end where there is none.
pub fn past(stop: usize, end: usize) -> usize
    requires { stop ≤ end }
    ensures { (result ≡ cond (ltb stop end) (stop + 1) end) × (result ≤ end) }
{
    if stop < end { stop + 1 } else { end }
}

// A newline among the bytes ends a line; otherwise it ends as it did.
fn ending_at(stop: usize, end: usize, ending: Ending) -> Ending
    ensures { result ≡ cond (ltb stop end) Newline ending }
{
    if stop < end { Ending::Newline } else { ending }
}

// The unread bytes up to the newline go into the line's buffer, as far as it has room.
pub fn cut(chunk: &[u8; 65536], line: &mut [u8; 65536], p: Part) -> Part
    requires { Fit p }
    ensures { Cuts chunk.now line.old p result line.new }
{
    let stop = find(chunk, p.at, p.end);
    let n = (stop - p.at).min(65536 - p.len);
    output::inner::copy(line, p.len, chunk, p.at, n);
    Part {
        at: past(stop, p.end),
        end: p.end,
        len: p.len + n,
        long: p.long | (n < stop - p.at),
        ending: ending_at(stop, p.end, p.ending),
    }
}
