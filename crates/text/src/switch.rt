// Switch texts: read, and written into a lent buffer.
ghost use Rattle.std.specs.Prelude.{◌≡◌, ◌+◌, ◌≤◌, length};
ghost use Rattle.text.specs.Switch.{read_switch, switch_text};
ghost use Rattle.text.specs.Written.{Wrote};

use crate::written::put_byte;

// What a switch text says; `Turn` turns the present value over.
#[derive(Clone, Copy)]
pub enum Switch {
    On,
    Off,
    Turn,
}

// The switch that `s` says, where it is exactly one letter of the three.
#[tactic(auto, using(crate::specs::Switch::Laws::letters))]
pub fn read_switch(s: &[u8]) -> Option<Switch>
    ensures { result ≡ read_switch s.now }
{
    if s.len() != 1 {
        return None;
    }
    match s[0] {
        b'O' => Some(Switch::On),
        b'F' => Some(Switch::Off),
        b'T' => Some(Switch::Turn),
        _ => None,
    }
}

// `F` where `n` is 0, else `O`.
pub fn put_switch(buffer: &mut [u8], at: usize, n: u64) -> usize
    requires { at + length (switch_text n) ≤ length buffer.old }
    ensures { Wrote buffer.old at (switch_text n) result buffer.new }
{
    if n == 0 {
        return put_byte(buffer, at, b'F');
    }
    put_byte(buffer, at, b'O')
}
