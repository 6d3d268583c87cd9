// A volume made: of old lines, and of a volume and one problem more. What a volume is stands in specs/Volumes.
#![tactic(auto)]

ghost use Rattle.volume_make.specs.Making.{Makes};

use volume_contents::{Flaw, Why};

pub mod inner; // inner.rt: head, rows and bodies written into a lent slice

const MOST: usize = 65535;

// Old lines into a volume: refusals 14 for all lines, 17, then 1 to 6 line by line, 13. Only a whole volume is written.
pub fn to_volume(lines: &[u8], out: &mut [u8]) -> Result<usize, Why>
    ensures { Makes lines.now out.old result out.new }
{
    let s = volume_lines::inner::survey(lines, 0, volume_lines::inner::unrefused());
    let n = s.count;
    if !s.good | (s.at < lines.len()) {
        return Err(Why::Line(n + 1));
    }
    if n > MOST {
        return Err(Why::Contents(Flaw::Many, 65536));
    }
    let named = s.named;
    let v = named.verdict;
    match v {
        Err(w) => Err(Why::Board(w, named.line)),
        Ok(()) => {
            let need = 6 + 42 * n;
            if out.len() < need {
                return Err(Why::Room(need));
            }
            inner::write(lines, out, n);
            Ok(need)
        }
    }
}
