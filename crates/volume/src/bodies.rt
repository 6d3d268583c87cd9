// The boards of lines and of bodies, judged.
ghost use Rattle.std.specs.Prelude.{◌≤◌, ◌<◌};

use super::answers::Fault;
use super::clock::Clock;
use super::file::File;
use position_text::{Form, Raw};
use std::time;
use volume_contents::Why;

// 18 and 1 to 6 of what was read at a place.
pub(super) fn judge(raw: Raw, place: usize) -> Result<(), Why> {
    match raw.form {
        Form::OutOfForm => Err(Why::Body(place)),
        Form::InForm => match accept::inner::judge(raw.position) {
            Err(r) => Err(Why::Board(r, place)),
            Ok(()) => Ok(()),
        },
    }
}

// Whether what was read is an accepted board.
pub(super) fn is_sound(raw: Raw) -> bool {
    judge(raw, 0).is_ok()
}

// 18 and 1 to 6 of the n bodies of a volume, each in the edition of its row.
pub(super) fn judge_all(
    f: &File,
    n: u16,
    rows: &mut [u8; 65536],
    bodies: &mut [u8; 65536],
    clock: &mut Clock<impl time::Clock + Eprint>,
) -> Result<(), Fault> {
    let all = n as usize;
    for i in (0..all).step_by(1024) {
        let k = (all - i).min(1024);
        f.fill(6 + 8 * i, rows, 8 * k)?;
        f.fill(6 + 8 * all + 34 * i, bodies, 34 * k)?;
        judge_some(rows, bodies, k, i)?;
        clock.tick(i + k);
    }
    Ok(())
}

// The first of k bodies that is refused, if one is; they stand behind `before` others.
fn judge_some(rows: &[u8; 65536], bodies: &[u8; 65536], k: usize, before: usize) -> Result<(), Why>
    requires { (k ≤ 1024) × (before ≤ 65535) }
{
    for j in 0..k {
        judge(read(rows, bodies, j), before + j + 1)?;
    }
    Ok(())
}

fn read(rows: &[u8; 65536], bodies: &[u8; 65536], j: usize) -> Raw
    requires { j < 1024 }
{
    let e = volume_contents::inner::entry(rows, 8 * j);
    let edition = volume_contents::inner::edition_of(e.edition);
    let at = 34 * j;
    volume_body::inner::read_body(&bodies[at..at + 34], edition)
}
