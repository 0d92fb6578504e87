// The row by value: lent for one call, and handed back.
ghost use Rattle.values.specs.Room.{room_of};
ghost use Rattle.connections.specs.Connections.{Switches};
ghost use Rattle.connections.specs.Turn.{Turns, asked, tells};

use crate::connection::{Connection, switch};
use crate::turn::turn;
use crate::turning::Turned;

// The row after a connection was to be opened or closed, and the number of a refusal or 0.
#[derive(Clone, Copy)]
pub struct RowSwitched {
    pub row: [Connection; 32],
    pub number: u8,
}

// The row after a turn, and what the turn tells.
#[derive(Clone, Copy)]
pub struct RowTurned {
    pub row: [Connection; 32],
    pub turned: Turned,
}

// Opens a connection of a row (`want` is true) or closes it.
pub fn switch_of(row: [Connection; 32], number: usize, want: bool) -> RowSwitched
    ensures { Switches want row number result.number result.row }
{
    let mut switched = row;
    let told = switch(&mut switched, number, want);
    RowSwitched {
        row: switched,
        number: told,
    }
}

// A turn.
pub fn turn_of(
    row: [Connection; 32],
    last: usize,
    table: &[u8],
    given: &[u8],
    counts: &[u64],
    values: &mut [i64],
    reply: &mut [u8],
) -> RowTurned
    ensures { Turns (room_of table.now) (asked row last counts.now given.now values.old reply.old) (tells result.turned values.new reply.new) result.row }
{
    let mut turned = row;
    let told = turn(&mut turned, last, table, given, counts, values, reply);
    RowTurned {
        row: turned,
        turned: told,
    }
}
