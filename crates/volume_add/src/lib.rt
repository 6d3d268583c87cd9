// One problem more: a volume and a board of either edition, under a number above those that it has, into a longer volume.
#![tactic(auto)]

ghost use Rattle.volume_add.specs.Adding.{Adds};

use laws::Position;
use volume_contents::Why;

pub mod inner; // inner.rt: the tests of the new problem, and the longer volume written

// Refusals 17, 18 and 1 to 6 of the volume as it is, then 17 for the number and 1 to 6 for the board, with the new row, then 13. Only a whole volume is written.
pub fn add(volume: &[u8], number: usize, board: Position, out: &mut [u8]) -> Result<usize, Why>
    ensures { Adds volume.now number board out.old result out.new }
{
    let n = volume_read::inner::contents(volume, false)?;
    volume_read::inner::scan(volume, n)?;
    inner::add_to(volume, n, number, board, out)
}
