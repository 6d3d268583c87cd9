// The file that is read: a regular one, by places in it.
ghost use Rattle.std.specs.Prelude.{◌≤◌, length};

use super::answers::Fault;
use std::io::{Seek, SeekFrom};
use std::os::unix::fs::FileExt;
use std::rt::Files;
use std::{fs, str};

// A file of `size` bytes.
#[derive(Drop)]
pub struct File {
    file: fs::File,
    pub size: usize,
}

impl File {
    // A file that is more than regular, as a device or a pipe, has no size, or bytes behind it. A path is text.
    pub(super) fn open(files: &impl Files<File = fs::File>, path: &[u8]) -> Option<File> {
        let path = str::from_utf8(path).ok()?;
        let mut file = fs::File::open(files, path).ok()?;
        let size = file.seek(SeekFrom::End(0)).ok()? as usize;
        let f = File { file, size };
        if !f.is_whole() {
            return None;
        }
        Some(f)
    }

    // Whether nothing stands behind the file's size.
    fn is_whole(&self) -> bool {
        self.byte_at(self.size) == Some(0)
    }

    // How many bytes a read of one byte brings, 0 behind the end of the file; none where it fails.
    fn byte_at(&self, at: usize) -> Option<usize> {
        if at > 4611686018427387904 {
            return None;
        }
        let mut one = [0u8; 1];
        self.file.read_at(&mut one, at as u64).ok()
    }

    // Why bytes inside the file's size do not come: it is shorter by now, or cannot be read.
    fn lacking(&self) -> Fault {
        if self.size > 0 && self.byte_at(self.size - 1) == Some(0) {
            return Fault::Changed;
        }
        Fault::Unread
    }

    // What a second pass comes to that met so many problems again, n having been there before.
    pub(super) fn same(&self, n: u16, count: usize) -> Result<(), Fault> {
        if (count == n as usize) & self.is_whole() {
            return Ok(());
        }
        Err(Fault::Changed)
    }

    // Reads n bytes from the place `at` on.
    pub(super) fn fill(&self, at: usize, chunk: &mut [u8], n: usize) -> Result<(), Fault>
        requires { n ≤ length chunk.old }
    {
        if at > 4611686018427387904 {
            return Err(self.lacking());
        }
        let got = self.file.read_exact_at(&mut chunk[..n], at as u64);
        got.map_err(|_| self.lacking())
    }
}
