// Reads occupied sets, one a line as sixteen hexadecimal digits, and prints what the sliders reach from each square, in the form of the oracle's
// `ported sliders`.
ghost use Rattle.std.specs.Prelude.{◌<◌, ◌≤◌};

use super::end_with;
use std::io::{Input, Read};

// No input uses the turns up. A line of another form ends them.
pub(super) fn show_all(rt: &(impl Input + Print + Eprint)) {
    let mut line = [0u8; 17];
    for _ in 0..u64::MAX {
        let n = read_full(rt, &mut line);
        if n == 0 {
            return;
        }
        let Some(occ) = set_of(&line[..n]) else {
            let _ = eprintln!(rt; "show_tables: a line is no set");
            return;
        };
        show_set(rt, occ);
    }
}

// Reads until the line is full, the input ends or a read fails, and answers how many bytes came.
fn read_full(stdin: &impl Input, line: &mut [u8; 17]) -> usize
    ensures { result ≤ 17 }
{
    let mut reader = stdin.reader();
    let mut n = 0;
    // No `read_exact`: it does not say how many bytes came.
    while n < 17 {
        let Ok(more) = reader.read(&mut line[n..]) else {
            return n;
        };
        if more == 0 {
            return n;
        }
        n += more;
    }
    n
}

// The set of a line, where that is sixteen hexadecimal digits and a newline.
fn set_of(line: &[u8]) -> Option<u64> {
    if line.len() != 17 || line[16] != b'\n' {
        return None;
    }
    let mut set = 0u64;
    for b in &line[..16] {
        let d = digits::hex_digit(*b);
        if d > 15 {
            return None;
        }
        set = (set << 4) | d;
    }
    Some(set)
}

fn show_set(out: &impl Print, occ: u64) {
    for sq in 0u8..64 {
        show_square(out, sq, occ);
    }
}

fn show_square(out: &impl Print, sq: u8, occ: u64)
    requires { sq < 64 }
{
    show(
        out,
        "rook ",
        sq,
        occ,
        sliding::inner::get_rook_moves(sq, occ),
    );
    show(
        out,
        "bishop ",
        sq,
        occ,
        sliding::inner::get_bishop_moves(sq, occ),
    );
    show(
        out,
        "queen ",
        sq,
        occ,
        sliding::inner::get_queen_moves(sq, occ),
    );
}

fn show(out: &impl Print, name: &str, sq: u8, occ: u64, set: u64) {
    let _ = print!(out; "{name}{sq} {occ:016x} ");
    end_with(out, set);
}
