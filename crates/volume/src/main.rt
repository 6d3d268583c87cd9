// The register as one file. By its first argument:
//   make LINES VOLUME PART    old lines to a volume
//   lines VOLUME LINES PART   a volume to old lines
//   show VOLUME N             the edition and the text of one problem
//   check VOLUME              a volume's contents, bodies and boards
// docs/VOLUME.md has the layout and the refusals, in their order. PART is a name beside the file that is written, which takes its place when it is whole.
#![tactic(auto)]

ghost use Rattle.std.specs.Prelude.{◌≤◌};

mod answers; // answers.rt: what a call comes to, in writing
mod bodies; // bodies.rt: the boards of lines and bodies, judged
mod check; // check.rt: a volume's tests
mod clock; // clock.rt: a sign of progress
mod convert; // convert.rt: old lines to a volume, and back
mod file; // file.rt: the file that is read
mod lines; // lines.rt: the lines of a volume, written
mod make; // make.rt: old lines tested, and their volume written
mod show; // show.rt: one problem
mod sink; // sink.rt: what is written
mod table; // table.rt: a volume's head and table of contents

use std::env::FillError;
use std::io::IsTerminal;
use std::rt::{Env, Files};
use std::{fs, time};

// What is asked.
#[derive(Clone, Copy)]
enum Task {
    Make,
    Lines,
    Show,
    Check,
    Nothing,
}

// The words behind the verb: the name of the file that is read, that of the file that is written or a number, and the name of a file until it is whole.
#[derive(Clone, Copy)]
pub struct Names<'a> {
    input: &'a [u8],
    other: &'a [u8],
    part: &'a [u8],
}

fn main(rt: HostRuntime) {
    let mut verb = io::buffer();
    let mut first = io::buffer();
    let mut second = io::buffer();
    let mut third = io::buffer();
    let mut chunk = io::large_buffer();
    let mut out = io::large_buffer();
    let v = argument(&rt, 1, &mut verb);
    let a = argument(&rt, 2, &mut first);
    let b = argument(&rt, 3, &mut second);
    let c = argument(&rt, 4, &mut third);
    let task = task_of(&verb[..v], words(&rt));
    let names = Names {
        input: &first[..a],
        other: &second[..b],
        part: &third[..c],
    };
    run(&rt, &rt.stderr(), task, names, &mut chunk, &mut out);
}

// How many bytes of an argument are in `buffer`: none of one that is missing or longer.
fn argument(env: &impl Env, i: usize, buffer: &mut [u8; 4096]) -> usize
    ensures { result ≤ 4096 }
{
    env.arg(i, buffer).unwrap_or(0)
}

// How many words the call has, the program's name among them; no task has six.
fn words(env: &impl Env) -> usize {
    let mut word = io::buffer();
    for i in 0..6 {
        if let Err(FillError::NotPresent) = env.arg(i, &mut word) {
            return i;
        }
    }
    6
}

// The task of a verb with so many words, the program's name among them.
fn task_of(verb: &[u8], words: usize) -> Task {
    match (verb, words) {
        (b"make", 5) => Task::Make,
        (b"lines", 5) => Task::Lines,
        (b"show", 4) => Task::Show,
        (b"check", 3) => Task::Check,
        _ => Task::Nothing,
    }
}

fn run(
    rt: &(impl Files<File = fs::File> + time::Clock + Print + Eprint),
    stderr: &(impl Print + IsTerminal),
    task: Task,
    names: Names,
    chunk: &mut [u8; 65536],
    out: &mut [u8; 65536],
) {
    let on_terminal = stderr.is_terminal();
    let answer = match task {
        Task::Make => convert::convert(rt, on_terminal, false, names, chunk, out),
        Task::Lines => convert::convert(rt, on_terminal, true, names, chunk, out),
        Task::Show => show::show(rt, names.input, names.other, chunk, out),
        Task::Check => check::check(rt, on_terminal, names.input, chunk, out),
        Task::Nothing => {
            let _ = eprintln!(rt;
                "volume: make LINES VOLUME PART, lines VOLUME LINES PART, show VOLUME N or check VOLUME"
            );
            return;
        }
    };
    let of_lines = matches!(task, Task::Make);
    answers::tell(rt, stderr, answer, of_lines, names, out);
}
