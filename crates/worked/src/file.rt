// Reading files. What a file holds is outside the proof, so the contract only limits the answer.
ghost use Rattle.std.specs.Prelude.{◌≡◌, ◌≤◌, length, take};

use std::rt::Files;
use streams::reading;

// Reads a file into the buffer, and returns how many bytes came: none where there is no such file.
pub(crate) fn read_file(files: &impl Files, path: &[u8], buffer: &mut [u8]) -> usize
    ensures { (result ≤ length buffer.new) × (result ≡ length (take result buffer.new)) }
{
    reading::read_file(files, path, buffer).unwrap_or_else(|why| why.bytes_read())
}
