// `solution TAB position TAB line TAB line ..`: the verdict on a solution of a position in edition A; each field behind the position is one line.
ghost use Rattle.std.specs.Prelude.{◌≤◌};
ghost use Rattle.puts.specs.inner.Growing.{Grows};

use laws::Edition;
use solution::{Checked, Why};

// The answer to a line of this verb, 0 bytes to any other.
pub fn answer(line: &[u8], out: &mut [u8; 65536]) -> usize
    ensures { Grows 0 result }
{
    if !fields::inner::starts(line, b"solution\t") {
        return 0;
    }
    let mut room = io::large_buffer();
    let at = fields::inner::after(line, 0, b'\t');
    let n = take_lines(line, fields::inner::stop(line, at, b'\t'), &mut room);
    put_verdict(checked(fields::inner::text(line, at), &room, n), out)
}

// What stands behind the tab at a place, each field with a newline behind it. Where the line ends there is no tab, and so no field. No line of `ask` outgrows
// the room.
fn take_lines(line: &[u8], tab: usize, room: &mut [u8; 65536]) -> usize
    ensures { result ≤ 65536 }
{
    if tab >= line.len() {
        return 0;
    }
    let lines = &line[tab + 1..];
    let n = lines.len().min(65536);
    room[..n].copy_from_slice(&lines[..n]);
    for b in &mut room[..n] {
        *b = ended(*b);
    }
    if n == 65536 {
        return n;
    }
    room[n] = b'\n';
    n + 1
}

// Where a tab ends a field, a newline ends a line.
fn ended(b: u8) -> u8 {
    if b == b'\t' { b'\n' } else { b }
}

// The verdict on the solution in the first n bytes.
fn checked(position: &[u8], room: &[u8; 65536], n: usize) -> Result<Checked, Why>
    requires { n ≤ 65536 }
{
    let lines: &[u8] = room;
    solution::check(position, Edition::A, &lines[..n])
}

fn put_verdict(told: Result<Checked, Why>, out: &mut [u8; 65536]) -> usize
    ensures { Grows 0 result }
{
    let mut text = [0u8; 196608];
    let n = solution_reply::inner::put_verdict(told, &mut text);
    put_line(&text, n, out)
}

// The first n bytes of a text without their last one, the newline, since `ask` puts one behind each answer.
fn put_line(text: &[u8; 196608], n: usize, out: &mut [u8; 65536]) -> usize
    requires { 1 ≤ n }
    ensures { Grows 0 result }
{
    puts::inner::front(out, 0, text, n - 1)
}
