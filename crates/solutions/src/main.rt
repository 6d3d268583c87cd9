// Answers standard input, a file with a position on its first line and a solution below it, by the verdict on the solution.
#![tactic(auto)]

ghost use Rattle.std.specs.Prelude.{◌≤◌, IfOk, length};
ghost use Rattle.io.specs.Counts.{IsPrefixLen};

use std::io::{ErrorKind, Input, Read};

fn main(rt: HostRuntime) {
    let mut file = io::large_buffer();
    let mut out = [0u8; 196608];
    let Ok(n) = fill(&rt, &mut file) else {
        let _ = eprintln!(rt; "solutions: the input cannot be read");
        return;
    };
    answer(&rt, &file, n, &mut out);
}

// How many bytes came until the buffer was full or the input ended. What is longer needs no more: of a position in form and lines in form 4,097 lines
// end long before (solution_reply/proofs/Enough.antt).
fn fill(stdin: &impl Input, file: &mut [u8]) -> std::io::Result<usize>
    ensures { IfOk result (λ n. n ≤ length file.old) }
{
    let mut reader = stdin.reader();
    let mut n = 0;
    // No `read_exact`: it does not say how many bytes came.
    while n < file.len() {
        let more = reader.read(&mut file[n..])?;
        if more == 0 {
            break;
        }
        n += more;
    }
    Ok(n)
}

// One write.
fn answer(rt: &(impl Print + Eprint), file: &[u8; 65536], n: usize, out: &mut [u8; 196608])
    requires { n ≤ 65536 }
{
    let sent: &[u8] = file;
    let len = solution_reply::reply(&sent[..n], out);
    write(rt, out, len);
}

// False where it cannot be written, which is told, but where the reader is gone.
fn write(rt: &(impl Print + Eprint), out: &[u8; 196608], n: usize) -> bool
    requires { IsPrefixLen n out.now }
{
    let printed: &[u8] = out;
    let Err(why) = rt.write_all(&printed[..n]) else {
        return true;
    };
    if !matches!(why.kind(), ErrorKind::BrokenPipe) {
        let _ = eprintln!(rt; "solutions: the output cannot be written");
    }
    false
}
