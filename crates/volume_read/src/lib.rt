// A volume read: back into old lines, checked whole, and one problem of it by its number. What it answers stands in specs/Reading.
#![tactic(auto)]

ghost use Rattle.volume_read.specs.Reading.{Checks, Finds, Unmakes};

use laws::Position;
use volume_contents::Why;

pub mod inner; // inner.rt: the table, the bodies one by one, and their lines

// How many problems a volume has that is whole: refusals 17, then 18 and 1 to 6 row by row.
pub fn check(volume: &[u8]) -> Result<usize, Why>
    ensures { Checks volume.now result }
{
    let n = inner::contents(volume, false)?;
    inner::scan(volume, n)?;
    Ok(n)
}

// One problem by its number, or none where no row has it: refusals 17 for the whole table, then 18 and 1 to 6 for that problem alone.
pub fn problem(volume: &[u8], number: usize) -> Result<Option<Position>, Why>
    ensures { Finds volume.now number result }
{
    let n = inner::contents(volume, false)?;
    inner::problem(volume, n, number)
}

// A volume back into old lines, and the number of their bytes: refusals 17, then 18 and 1 to 6 row by row, 13. Only whole lines are written.
pub fn to_lines(volume: &[u8], out: &mut [u8]) -> Result<usize, Why>
    ensures { Unmakes volume.now out.old result out.new }
{
    let n = inner::contents(volume, true)?;
    let need = inner::scan(volume, n)?;
    if out.len() < need {
        return Err(Why::Room(need));
    }
    inner::put_lines(volume, out, n);
    Ok(need)
}
