// Writing bytes into a lent buffer from a place on; each writer answers the place behind its text.
ghost use Rattle.std.specs.Prelude.{[], ◌∷◌, ◌+◌, ◌≤◌, length};
ghost use Rattle.text.specs.Written.{Wrote};

// The bytes of `source`. One by one: `copy_from_slice` asks a host for `memmove`, too.
#[tactic(auto, using(crate::specs::Written::Laws::copying))]
pub fn put_bytes(buffer: &mut [u8], at: usize, source: &[u8]) -> usize
    requires { at + length source.now ≤ length buffer.old }
    ensures { Wrote buffer.old at source.now result buffer.new }
{
    for i in 0..source.len() {
        buffer[at + i] = source[i];
    }
    at + source.len()
}

// One byte.
pub fn put_byte(buffer: &mut [u8], at: usize, b: u8) -> usize
    requires { at + 1 ≤ length buffer.old }
    ensures { Wrote buffer.old at (b ∷ []) result buffer.new }
{
    buffer[at] = b;
    at + 1
}
