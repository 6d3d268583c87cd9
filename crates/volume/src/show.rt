// One problem of a volume, found by its number.
use super::answers::{Answer, Fault};
use super::file::File;
use super::sink::Sink;
use super::table::Found;
use super::{answers, bodies, table};
use laws::{Edition, Position};
use std::fs;
use std::rt::Files;

pub(super) fn show(
    rt: &(impl Files<File = fs::File> + Print + Eprint),
    input: &[u8],
    name: &[u8],
    chunk: &mut [u8; 65536],
    out: &mut [u8; 65536],
) -> Result<Answer, Fault> {
    let number = parse(name).ok_or(Fault::NoNumber)?;
    let f = File::open(rt, input).ok_or(Fault::Unread)?;
    let n = table::head(&f, chunk)?;
    let Some(found) = table::walk(&f, n, false, number, chunk)? else {
        return Ok(Answer::Absent);
    };
    show_row(rt, &f, n, found, chunk, out)?;
    Ok(Answer::Shown)
}

// A number in decimal digits. One above 65,535, which no row has, is as good as 65,536.
fn parse(name: &[u8]) -> Option<usize> {
    if name.is_empty() {
        return None;
    }
    let mut n = 0;
    for b in name {
        if !b.is_ascii_digit() {
            return None;
        }
        n = (10 * n + (*b - b'0') as usize).min(65536);
    }
    Some(n)
}

// 18 and 1 to 6 of the body of a row.
fn show_row(
    rt: &(impl Print + Eprint),
    f: &File,
    n: u16,
    found: Found,
    chunk: &mut [u8; 65536],
    out: &mut [u8; 65536],
) -> Result<(), Fault> {
    let row = found.row as usize;
    f.fill(6 + 8 * (n as usize) + 34 * row, chunk, 34)?;
    let edition = volume_contents::inner::edition_of(found.edition);
    let raw = volume_body::inner::read_body(&chunk[..34], edition);
    bodies::judge(raw, row + 1)?;
    print(rt, edition, raw.position, out);
    Ok(())
}

fn print(rt: &(impl Print + Eprint), edition: Edition, position: Position, out: &mut [u8; 65536]) {
    let mut s = Sink::to_output(rt, out);
    match edition {
        Edition::A => s.put(b"A "),
        Edition::B => s.put(b"B "),
    }
    s.put_line(position_text::inner::line_of(position));
    s.put(b"\n");
    answers::say(rt, &mut s);
}
