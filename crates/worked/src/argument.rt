// The arguments that the program was started with. What they are is outside the proof.
ghost use Rattle.std.specs.Prelude.{◌≡◌, ◌≤◌, length, take};

use std::env::FillError;
use std::rt::Env;

// How many arguments there are, the program's own name among them.
pub(crate) fn argument_count(env: &impl Env) -> usize {
    for i in 0..usize::MAX {
        if let Err(FillError::NotPresent) = env.arg(i, &mut []) {
            return i;
        }
    }
    usize::MAX
}

// Puts an argument into the buffer, and tells how many bytes it has: 0 where there is none, or it is longer.
pub(crate) fn argument(env: &impl Env, i: usize, buffer: &mut [u8]) -> usize
    ensures { (result ≤ length buffer.new) × (result ≡ length (take result buffer.new)) }
{
    match env.arg(i, buffer) {
        Ok(length) => length,
        Err(_) => 0,
    }
}
