// What the bytes of a command say.
ghost use Rattle.std.specs.Prelude.{◌≡◌, ◌*◌, ◌≤◌, length};
ghost use Rattle.turns.specs.Command.{command_of, switch_of};

// Opening or closing a connection, or a turn.
#[derive(Clone, Copy)]
pub enum Command {
    Switch(bool, usize),
    Turn,
}

// Of two bytes: `o` and a number open a connection, `c` and a number close it.
fn switch_of(letter: u8, number: u8) -> Option<Command>
    ensures { result ≡ switch_of letter number }
{
    match letter {
        b'o' => Some(Command::Switch(true, usize::from(number))),
        b'c' => Some(Command::Switch(false, usize::from(number))),
        _ => None,
    }
}

// Two bytes switch a connection; `t`, 32 counts and the bytes that they divide are a turn. Other bytes are no command.
pub(crate) fn command_of(bytes: &[u8]) -> Option<Command>
    ensures { result ≡ command_of bytes.now }
{
    if bytes.len() == 2 {
        return switch_of(bytes[0], bytes[1]);
    }
    if bytes.len() < 33 {
        return None;
    }
    if bytes[0] != b't' {
        return None;
    }
    Some(Command::Turn)
}

// How many bytes a command has after its first one, as far as that tells: of a turn the counts alone.
pub(crate) fn more_of(first: u8) -> usize
    ensures { result ≤ 32 }
{
    match first {
        b'o' | b'c' => 1,
        b't' => 32,
        _ => 0,
    }
}

// The sum of the counts. The contract only limits it.
pub(crate) fn sum_of(counts: &[u8]) -> usize
    requires { length counts.now ≤ 32 }
    ensures { result ≤ 255 * length counts.now }
{
    let mut sum = 0;
    for count in counts {
        sum += usize::from(*count);
    }
    sum
}
