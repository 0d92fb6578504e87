// The calls on 32 connections.
ghost use Rattle.std.specs.Prelude.{false, true, ◌≡◌, length};
ghost use Rattle.values.specs.Room.{room_of};
ghost use Rattle.capi.specs.Connections.{switch_answer, switch_tells};
ghost use Rattle.capi.specs.Turn.{TurnCalled};
ghost use Rattle.capi.specs.Turn.Turning.{TurnsPicked};

use crate::connection_bytes::{connection_at, store_served, survey_of, switch_bytes};
use crate::fault::fault_numbers;
use connections::turning::{TurnedOne, pick, turn_one};

// The turn for the connection that is picked and taken out of the row, which is only read.
fn turn_picked(
    table: &[u8],
    values: &mut [i64],
    row: &[u8],
    last: usize,
    given: &[u8],
    counts: &[u64],
    reply: &mut [u8],
) -> TurnedOne
    requires { length row.now ≡ 2144 }
    ensures { TurnsPicked (room_of table.now) values.old row.now last given.now counts.now reply.old result values.new reply.new }
{
    let survey = survey_of(row);
    let number = pick(survey, counts, last);
    let one = connection_at(row, number);
    turn_one(one, survey, last, table, given, counts, values, reply)
}

// A turn: `told` becomes 1 and the number of the connection that was served, or 0 and 0 for nobody, the bytes consumed, the reply's length, and the cause and place of a 99. The
// row is stored only where one was served.
#[tactic(auto, using(crate::specs::Turn::Turning::turning))]
#[unsafe(no_mangle)]
pub extern "C" fn egrivundo_turn(
    table: &[u8],
    values: &mut [i64],
    row: &mut [u8],
    last: u64,
    given: &[u8],
    counts: &[u64],
    reply: &mut [u8],
    told: &mut [u64; 6],
) -> u8
    ensures { TurnCalled (room_of table.now) values.old row.old last given.now counts.now reply.old result values.new row.new reply.new told.new }
{
    if row.len() != 2144 {
        *told = [0; 6];
        return 10;
    }
    let done = turn_picked(table, values, row, last as usize, given, counts, reply);
    let turned = done.turned;
    match turned.served {
        None => {
            *told = [0, 0, 0, 0, 0, 0];
            turned.number
        }
        Some(one) => {
            let why = turned.fault;
            let fault = fault_numbers(why);
            let consumed = turned.consumed as u64;
            let sent = turned.sent as u64;
            *told = [1, one as u64, consumed, sent, fault[0], fault[1]];
            let after = done.connection;
            let port = after.port;
            store_served(row, one, port);
            turned.number
        }
    }
}

// Opens a connection.
#[unsafe(no_mangle)]
pub extern "C" fn egrivundo_open(row: &mut [u8], number: u64) -> u8
    ensures { switch_tells result row.new ≡ switch_answer true row.old number }
{
    switch_bytes(row, number, true)
}

// Closes a connection.
#[unsafe(no_mangle)]
pub extern "C" fn egrivundo_close(row: &mut [u8], number: u64) -> u8
    ensures { switch_tells result row.new ≡ switch_answer false row.old number }
{
    switch_bytes(row, number, false)
}
