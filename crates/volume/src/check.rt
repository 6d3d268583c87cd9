// A volume's tests: 17 over the head and the table, then 18 and 1 to 6 row by row.
use super::answers::{Answer, Fault};
use super::clock::Clock;
use super::file::File;
use super::{bodies, table};
use std::rt::Files;
use std::{fs, time};

pub(super) fn check(
    rt: &(impl Files<File = fs::File> + time::Clock + Eprint),
    on_terminal: bool,
    input: &[u8],
    rows: &mut [u8; 65536],
    boards: &mut [u8; 65536],
) -> Result<Answer, Fault> {
    let f = File::open(rt, input).ok_or(Fault::Unread)?;
    let mut clock = Clock::start(rt, on_terminal);
    let judged = judge(&f, false, rows, boards, &mut clock);
    clock.stop();
    Ok(Answer::Problems(judged?))
}

// How many problems there are. `back` is on the way to lines, and this the first pass.
pub(super) fn judge(
    f: &File,
    back: bool,
    rows: &mut [u8; 65536],
    boards: &mut [u8; 65536],
    clock: &mut Clock<impl time::Clock + Eprint>,
) -> Result<u16, Fault> {
    let n = table::head(f, rows)?;
    table::walk(f, n, back, 0, rows)?;
    bodies::judge_all(f, n, rows, boards, clock)?;
    Ok(n)
}
