// A turn over a lent row.
ghost use Rattle.values.specs.Room.{room_of};
ghost use Rattle.connections.specs.Turn.{Turns, asked, tells};

use crate::connection::Connection;
use crate::survey::{look_over, nothing_noted};
use crate::turning::{Turned, idle, pick, turn_at};

// All connections are looked over, and the next that waits is taken out, served and put back.
pub fn turn(
    row: &mut [Connection],
    last: usize,
    table: &[u8],
    given: &[u8],
    counts: &[u64],
    values: &mut [i64],
    reply: &mut [u8],
) -> Turned
    ensures { Turns (room_of table.now) (asked row.old last counts.now given.now values.old reply.old) (tells result values.new reply.new) row.new }
{
    let survey = look_over(row, nothing_noted());
    let at = pick(survey, counts, last);
    if row.len() == 32 {
        turn_at(row, at, survey, last, table, given, counts, values, reply)
    } else {
        idle(10)
    }
}
