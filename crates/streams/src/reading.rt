// Filling a buffer from a reader or a file.
ghost use Rattle.std.specs.Prelude.{◌≡◌, ◌≤◌, ◌<◌, length, take, IfOk};
ghost use Rattle.std.specs.Io.KnownBytes.{Consumes, IsAtEnd};
ghost use Rattle.streams.specs.Reading.{bytes_read, came};

use std::fs::File;
use std::io::Read;
use std::rt::Files;

// Why a buffer was neither filled nor filled up to the end of the input.
#[derive(Clone, Copy, Debug, PartialEq, Eq)]
pub enum Unread {
    // There is no such file, or it can't be opened.
    Unopened,
    // A read failed after so many bytes.
    Failed(usize),
}

impl Unread {
    // How many bytes were read before.
    pub fn bytes_read(self) -> usize
        ensures { result ≡ bytes_read self }
    {
        match self {
            Unread::Unopened => 0,
            Unread::Failed(count) => count,
        }
    }
}

// Reads until the buffer is full or the input ends, and returns how many bytes came.
pub fn read_full<R: Read>(reader: &mut R, buffer: &mut [u8]) -> Result<usize, Unread>
    ensures within { came result ≤ length buffer.new }
    ensures bytes { Consumes (R.remaining reader.old) (R.remaining reader.new) (take (came result) buffer.new) }
    ensures end { IfOk result (λ n. n < length buffer.new → IsAtEnd (R.remaining reader.new)) }
{
    let mut at = 0;
    // A turn moves on by what a read gives, which is no count of an iterator.
    while at < buffer.len() {
        match reader.read(&mut buffer[at..]) {
            Ok(0) => return Ok(at),
            Ok(count) => at += count,
            Err(_) => return Err(Unread::Failed(at)),
        }
    }
    Ok(at)
}

// Reads a file into the buffer. A name that is no UTF-8 text names none.
pub fn read_file<F: Files>(files: &F, path: &[u8], buffer: &mut [u8]) -> Result<usize, Unread>
    ensures { came result ≤ length buffer.new }
{
    let Ok(name) = str::from_utf8(path) else {
        return Err(Unread::Unopened);
    };
    match File::open(files, name) {
        Ok(mut file) => read_full(&mut file, buffer),
        Err(_) => Err(Unread::Unopened),
    }
}
