// The presses that standard input brings: on a terminal each key is one, elsewhere each line.
ghost use Rattle.std.specs.Prelude.{◌≤◌, IfSome};

use super::keys;
use input::{Cursor, Step};
use std::io::{Input, Read};

// Where presses come from, by keys or by lines: what was read last, the last line, and what is unread.
#[derive(Drop)]
pub struct Presses<'a, R> {
    rt: &'a R,
    by_key: bool,
    chunk: &'a mut [u8; 65536],
    pub line: &'a mut [u8; 65536],
    unread: Cursor,
}

impl<'a, R: Input + Eprint> Presses<'a, R> {
    pub(super) fn new(
        rt: &'a R,
        by_key: bool,
        chunk: &'a mut [u8; 65536],
        line: &'a mut [u8; 65536],
    ) -> Presses<'a, R> {
        Presses {
            rt,
            by_key,
            chunk,
            line,
            unread: input::start(),
        }
    }

    // A press by its first byte, 0 for an empty line; or no more.
    pub(super) fn next(&mut self) -> Option<u8> {
        if self.by_key {
            return self.next_key();
        }
        let len = self.next_line()?;
        if len == 0 {
            Some(0)
        } else {
            Some(self.line[0])
        }
    }

    // How many bytes of the next line are in `line`, if there is one.
    pub(super) fn next_line(&mut self) -> Option<usize>
        ensures { IfSome result (λ n. n ≤ 65536) }
    {
        match input::next(self.rt, self.chunk, self.line, self.unread) {
            Step::Line { len, long: _, next } => {
                self.unread = next;
                Some(len)
            }
            Step::End => None,
            Step::Failed => {
                failed(self.rt);
                None
            }
        }
    }

    // A key that is read already, or else the first of the next read. `^D` ends the presses, as the end of a file does.
    fn next_key(&mut self) -> Option<u8> {
        if self.unread.at >= self.unread.end {
            let Ok(end) = self.rt.reader().read(self.chunk) else {
                failed(self.rt);
                return None;
            };
            self.unread = Cursor { at: 0, end };
        }
        let at = self.unread.at;
        let chunk = &*self.chunk;
        let read = chunk.get(..self.unread.end)?;
        let byte = *read.get(at)?;
        if byte == 4 {
            return None;
        }
        self.unread.at = keys::past(read, at);
        Some(byte)
    }
}

fn failed(stderr: &impl Eprint) {
    let _ = eprintln!(stderr; "step: the input cannot be read");
}
