// Playing one command, without input or output.
ghost use Rattle.std.specs.Prelude.{◌≡◌, length};
ghost use Rattle.values.specs.Room.{room_of};
ghost use Rattle.turns.specs.Play.{Plays};

use crate::command::{Command, command_of};
use crate::told::told_bytes;
use connections::by_value::{switch_of, turn_of};
use connections::connection::Connection;
use connections::round::last_after;

// The row and the last served after a command, the bytes that tell of it and how many of these are to be written, 0 where it is none, and the length of the reply.
#[derive(Clone, Copy)]
pub struct Played {
    pub row: [Connection; 32],
    pub last: usize,
    pub told: [u8; 7],
    pub count: usize,
    pub sent: usize,
}

// The counts of a turn.
fn counts_of(bytes: &[u8]) -> [u64; 32]
    requires { length bytes.now ≡ 32 }
    ensures { result ≡ bytes.now }
{
    let mut counts = [0u64; 32];
    for (i, byte) in bytes.iter().enumerate() {
        counts[i] = u64::from(*byte);
    }
    counts
}

// Plays one command.
pub(crate) fn play(
    row: [Connection; 32],
    last: usize,
    table: &[u8],
    command: &[u8],
    values: &mut [i64],
    reply: &mut [u8],
) -> Played
    ensures { Plays (room_of table.now) row last command.now values.old reply.old result values.new reply.new }
{
    let Some(said) = command_of(command) else {
        return Played {
            row: row,
            last: last,
            told: [0, 0, 0, 0, 0, 0, 0],
            count: 0,
            sent: 0,
        };
    };
    match said {
        Command::Switch(want, number) => {
            let done = switch_of(row, number, want);
            let after = done.row;
            Played {
                row: after,
                last: last,
                told: [done.number, 0, 0, 0, 0, 0, 0],
                count: 1,
                sent: 0,
            }
        }
        Command::Turn => {
            let counts = counts_of(&command[1..33]);
            let done = turn_of(row, last, table, &command[33..], &counts, values, reply);
            let after = done.row;
            let turned = done.turned;
            let served = turned.served;
            let told = told_bytes(turned);
            Played {
                row: after,
                last: last_after(last, served),
                told: told,
                count: 7,
                sent: turned.sent,
            }
        }
    }
}
