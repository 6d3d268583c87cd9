// `bind TAB room lines`, `unbind TAB room volume`, `contents TAB volume`, `problem TAB number volume` and `add TAB room number edition volume text`, single
// spaces between: old lines into a volume, a volume back into lines, how many problems it has, one of them, and one problem more. Lines and volumes are bytes in hexadecimal, and the room is that of the lent slice.
ghost use Rattle.std.specs.Prelude.{◌≤◌};
ghost use Rattle.puts.specs.inner.Growing.{Grows};

use laws::{Edition, Position};
use position_text::Form;
use volume_contents::Why;

mod bytes; // bytes.rt: bytes in hexadecimal, read and put
mod refusals; // refusals.rt: why a volume is refused, put

// The answer to a line of one of these verbs, 0 bytes to any other.
pub fn answer(line: &[u8], out: &mut [u8; 65536]) -> usize
    ensures { Grows 0 result }
{
    let at = fields::inner::after(line, 0, b'\t');
    if fields::inner::starts(line, b"bind\t") {
        return convert(false, line, at, out);
    }
    if fields::inner::starts(line, b"unbind\t") {
        return convert(true, line, at, out);
    }
    if fields::inner::starts(line, b"contents\t") {
        return contents(line, at, out);
    }
    if fields::inner::starts(line, b"problem\t") {
        return problem(line, at, out);
    }
    if fields::inner::starts(line, b"add\t") {
        return add(line, at, out);
    }
    0
}

// Old lines into a volume, or with `back` a volume into old lines.
fn convert(back: bool, line: &[u8], at: usize, out: &mut [u8; 65536]) -> usize
    ensures { Grows 0 result }
{
    let mut given = [0u8; 16384];
    let n = bytes::read(line, fields::inner::after(line, at, b' '), &mut given);
    let size = room(line, at);
    let mut slice = [0u8; 16384];
    put_converted(back, bytes::first(&given, n), &mut slice[..size], out)
}

fn put_converted(back: bool, given: &[u8], slice: &mut [u8], out: &mut [u8; 65536]) -> usize
    ensures { Grows 0 result }
{
    let w = converted(back, given, slice);
    put_written(w, slice, out)
}

fn converted(back: bool, given: &[u8], slice: &mut [u8]) -> Result<usize, Why> {
    if back {
        volume_read::to_lines(given, slice)
    } else {
        volume_make::to_volume(given, slice)
    }
}

// One problem more; 14, with the line 0, where its text is out of form.
fn add(line: &[u8], at: usize, out: &mut [u8; 65536]) -> usize
    ensures { Grows 0 result }
{
    let number = fields::inner::after(line, at, b' ');
    let edition = fields::inner::after(line, number, b' ');
    let volume = fields::inner::after(line, edition, b' ');
    let text = fields::inner::after(line, volume, b' ');
    let terms = volume_contents::inner::edition_of(fields::inner::byte(line, edition));
    let raw = position_text::inner::read_raw(fields::inner::text(line, text), terms);
    let form = raw.form;
    match form {
        Form::OutOfForm => refusals::put(Why::Line(0), out),
        Form::InForm => {
            let board = raw.position;
            let k = fields::inner::number(line, number) as usize;
            put_longer(line, volume, k, board, room(line, at), out)
        }
    }
}

// The volume from a place on, with the board behind its problems.
fn put_longer(
    line: &[u8],
    at: usize,
    number: usize,
    board: Position,
    size: usize,
    out: &mut [u8; 65536],
) -> usize
    requires { size ≤ 16384 }
    ensures { Grows 0 result }
{
    let mut given = [0u8; 16384];
    let n = bytes::read(line, at, &mut given);
    let mut slice = [0u8; 16384];
    put_added(
        bytes::first(&given, n),
        number,
        board,
        &mut slice[..size],
        out,
    )
}

fn put_added(
    volume: &[u8],
    number: usize,
    board: Position,
    slice: &mut [u8],
    out: &mut [u8; 65536],
) -> usize
    ensures { Grows 0 result }
{
    let w = volume_add::add(volume, number, board, slice);
    put_written(w, slice, out)
}

// How many bytes are lent: all 16,384 for `-`, and where more are named.
fn room(line: &[u8], at: usize) -> usize
    ensures { result ≤ 16384 }
{
    if fields::inner::byte(line, at) == b'-' {
        return 16384;
    }
    let x = fields::inner::number(line, at);
    if x > 16384 { 16384 } else { x as usize }
}

// What was written, or why nothing was.
fn put_written(w: Result<usize, Why>, slice: &[u8], out: &mut [u8; 65536]) -> usize
    ensures { Grows 0 result }
{
    match w {
        Ok(n) => bytes::put_front(slice, n, out),
        Err(why) => refusals::put(why, out),
    }
}

fn contents(line: &[u8], at: usize, out: &mut [u8; 65536]) -> usize
    ensures { Grows 0 result }
{
    let mut volume = [0u8; 16384];
    let n = bytes::read(line, at, &mut volume);
    put_checked(volume_read::check(bytes::first(&volume, n)), out)
}

fn put_checked(c: Result<usize, Why>, out: &mut [u8; 65536]) -> usize
    ensures { Grows 0 result }
{
    match c {
        Ok(n) => puts::inner::number(out, 0, n as u64),
        Err(why) => refusals::put(why, out),
    }
}

fn problem(line: &[u8], at: usize, out: &mut [u8; 65536]) -> usize
    ensures { Grows 0 result }
{
    let mut volume = [0u8; 16384];
    let n = bytes::read(line, fields::inner::after(line, at, b' '), &mut volume);
    let number = fields::inner::number(line, at) as usize;
    put_found(volume_read::problem(bytes::first(&volume, n), number), out)
}

fn put_found(f: Result<Option<Position>, Why>, out: &mut [u8; 65536]) -> usize
    ensures { Grows 0 result }
{
    match f {
        Err(why) => refusals::put(why, out),
        Ok(None) => puts::inner::bytes(out, 0, b"absent"),
        Ok(Some(p)) => put_board(p, out),
    }
}

// The edition and the text.
fn put_board(p: Position, out: &mut [u8; 65536]) -> usize
    ensures { Grows 0 result }
{
    let terms = p.terms;
    let edition = terms.edition;
    let a = put_edition(edition, out);
    let l = position_text::inner::line_of(p);
    let text = l.bytes;
    puts::inner::front(out, a, &text, l.len)
}

fn put_edition(e: Edition, out: &mut [u8; 65536]) -> usize
    ensures { Grows 0 result }
{
    match e {
        Edition::A => puts::inner::bytes(out, 0, b"A "),
        Edition::B => puts::inner::bytes(out, 0, b"B "),
    }
}
