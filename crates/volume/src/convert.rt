// Old lines to a volume, and back, in two passes: the first tests all, and the second writes. The file has another name until it is whole, and takes the
// place of what stood under its own name at once.
ghost use Rattle.std.specs.Prelude.{◌≤◌, length};

use super::answers::{Answer, Fault};
use super::clock::Clock;
use super::file::File;
use super::sink::Sink;
use super::{Names, check, lines, make};
use std::fs::OpenFile;
use std::io::Write;
use std::rt::Files;
use std::{fs, str, time};

pub(super) fn convert(
    rt: &(impl Files<File = fs::File> + time::Clock + Eprint),
    on_terminal: bool,
    back: bool,
    names: Names,
    chunk: &mut [u8; 65536],
    out: &mut [u8; 65536],
) -> Result<Answer, Fault> {
    let f = File::open(rt, names.input).ok_or(Fault::Unread)?;
    let mut clock = Clock::start(rt, on_terminal);
    let n = both(rt, back, &f, names, chunk, out, &mut clock);
    clock.stop();
    Ok(Answer::Problems(n?))
}

// How many problems went from the one form into the other.
fn both(
    rt: &impl Files<File = fs::File>,
    back: bool,
    f: &File,
    names: Names,
    chunk: &mut [u8; 65536],
    out: &mut [u8; 65536],
    clock: &mut Clock<impl time::Clock + Eprint>,
) -> Result<u16, Fault> {
    let n = test(back, f, chunk, out, clock)?;
    write(rt, back, f, n, names, chunk, out, clock)?;
    Ok(n)
}

fn test(
    back: bool,
    f: &File,
    chunk: &mut [u8; 65536],
    out: &mut [u8; 65536],
    clock: &mut Clock<impl time::Clock + Eprint>,
) -> Result<u16, Fault> {
    if back {
        return check::judge(f, true, chunk, out, clock);
    }
    make::survey(f, chunk, clock)
}

// Where all went well the file gets its name, and otherwise it goes.
fn write(
    rt: &impl Files<File = fs::File>,
    back: bool,
    f: &File,
    n: u16,
    names: Names,
    chunk: &mut [u8; 65536],
    out: &mut [u8; 65536],
    clock: &mut Clock<impl time::Clock + Eprint>,
) -> Result<(), Fault> {
    let (Ok(target), Ok(part)) = (str::from_utf8(names.other), str::from_utf8(names.part)) else {
        return Err(Fault::Unwritten);
    };
    let Ok(file) = fs::File::create_new(rt, part) else {
        return Err(Fault::Unwritten);
    };
    let mut sink = Sink::to_file(file, out);
    let put = put_all(back, f, n, chunk, &mut sink, clock);
    let is_kept = keep(sink);
    // The sign goes before the file gets its name.
    clock.stop();
    if put.is_ok() && is_kept && fs::rename(rt, part, target).is_ok() {
        keep_name(rt, target.as_bytes());
        return Ok(());
    }
    let _ = fs::remove_file(rt, part);
    put?;
    Err(Fault::Unwritten)
}

fn put_all<W: Write>(
    back: bool,
    f: &File,
    n: u16,
    chunk: &mut [u8; 65536],
    sink: &mut Sink<W>,
    clock: &mut Clock<impl time::Clock + Eprint>,
) -> Result<(), Fault>
    requires { sink.old.len ≤ 65536 }
    ensures { sink.new.len ≤ 65536 }
{
    if back {
        return lines::put_all(f, n, chunk, sink, clock);
    }
    make::put_all(f, n, chunk, sink, clock)
}

// Whether the whole file could be brought to its device. It is closed.
fn keep(mut sink: Sink<fs::File>) -> bool
    requires { sink.len ≤ 65536 }
{
    sink.flush();
    let is_kept = sink.to.sync_all().is_ok();
    sink.is_good & is_kept
}

// Brings a file's name to its device, as far as the folder lets it: the file itself is there already.
fn keep_name(files: &impl Files, path: &[u8]) {
    let n = folder_of(path);
    if n == 0 {
        keep_folder(files, b".");
        return;
    }
    keep_folder(files, &path[..n]);
}

fn keep_folder(files: &impl Files, path: &[u8]) {
    let Ok(path) = str::from_utf8(path) else {
        return;
    };
    let Ok(folder) = fs::File::open(files, path) else {
        return;
    };
    let _ = folder.sync_all();
}

// How many bytes of a path name its folder, the last slash among them.
fn folder_of(path: &[u8]) -> usize
    ensures { result ≤ length path.now }
{
    match path.iter().rposition(|b| *b == b'/') {
        Some(last) => last + 1,
        None => 0,
    }
}
