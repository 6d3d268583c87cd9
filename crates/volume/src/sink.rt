// What is written. Bytes wait in a buffer, and go out when it is full.
ghost use Rattle.std.specs.Prelude.{◌≡◌, ◌≤◌, length};

use men_field::Line;
use std::fs;
use std::io::{Printer, Write};

// How many bytes of `out` wait, and whether all before them could be written.
#[derive(Drop)]
pub struct Sink<'a, W> {
    pub to: W,
    out: &'a mut [u8; 65536],
    pub len: usize,
    pub is_good: bool,
}

impl<'a> Sink<'a, fs::File> {
    pub(super) fn to_file(to: fs::File, out: &'a mut [u8; 65536]) -> Sink<'a, fs::File>
        ensures { result.len ≡ 0 }
    {
        Sink {
            to,
            out,
            len: 0,
            is_good: true,
        }
    }
}

impl<'a, P: Print> Sink<'a, Printer<'a, P>> {
    pub(super) fn to_output(rt: &'a P, out: &'a mut [u8; 65536]) -> Sink<'a, Printer<'a, P>>
        ensures { result.len ≡ 0 }
    {
        Sink {
            to: std::io::writer(rt),
            out,
            len: 0,
            is_good: true,
        }
    }
}

impl<'a, W: Write> Sink<'a, W> {
    // Writes what waits.
    pub(super) fn flush(&mut self)
        requires { self.old.len ≤ 65536 }
        ensures { self.new.len ≡ 0 }
    {
        let is_written = self.to.write_all(&self.out[..self.len]).is_ok();
        self.len = 0;
        self.is_good &= is_written;
    }

    pub(super) fn put(&mut self, bytes: &[u8])
        requires { (self.old.len ≤ 65536) × (length bytes.now ≤ 100) }
        ensures { self.new.len ≤ 65536 }
    {
        if self.len > 65436 {
            self.flush();
        }
        let end = self.len + bytes.len();
        let out = &mut *self.out;
        out[self.len..end].copy_from_slice(bytes);
        self.len = end;
    }

    pub(super) fn put_line(&mut self, l: Line)
        requires { (self.old.len ≤ 65536) × (l.len ≤ 81) }
        ensures { self.new.len ≤ 65536 }
    {
        self.put(&l.bytes[..l.len]);
    }

    pub(super) fn put_number(&mut self, n: usize)
        requires { self.old.len ≤ 65536 }
        ensures { self.new.len ≤ 65536 }
    {
        let mut text = [0u8; 20];
        let k = io::decimal(n as u64, &mut text);
        self.put(&text[..k]);
    }
}
