// A turn for the connection that was taken out of the row.
ghost use Rattle.std.specs.Prelude.{true, ◌≡◌, ◌<◌, ◌≤◌, length};
ghost use Rattle.room.specs.Table.{sound};
ghost use Rattle.values.specs.Room.{room_of};
ghost use Rattle.values.specs.Values.{values_sound};
ghost use Rattle.connections.specs.Parts.{total};
ghost use Rattle.connections.specs.Turn.Picking.{picked};
ghost use Rattle.connections.specs.Turn.Single.{ServesNext, ServesWaiting, TurnsAt, TurnsOne, still};

use crate::connection::Connection;
use crate::number::check_turn;
use crate::parts::part_start;
use crate::round::next_waiting;
use crate::serving::serve_one;
use crate::survey::Survey;
use syntax::cause::Malformed;

// What a turn tells: whom it served, how many bytes the call consumed and sent, why the reply is 99, and the number of a refusal or 0.
#[derive(Clone, Copy)]
pub struct Turned {
    pub served: Option<usize>,
    pub consumed: usize,
    pub sent: usize,
    pub fault: Option<Malformed>,
    pub number: u8,
}

// A connection after a turn, and what the turn tells.
#[derive(Clone, Copy)]
pub struct TurnedOne {
    pub connection: Connection,
    pub turned: Turned,
}

// Nobody is served.
pub(crate) fn idle(refusal: u8) -> Turned
    ensures { result ≡ still refusal }
{
    Turned {
        served: None,
        consumed: 0,
        sent: 0,
        fault: None,
        number: refusal,
    }
}

// Serves the connection with its own part of the bytes.
#[tactic(auto, using(crate::proofs::Laws::Turn::Single::Rules::waiting))]
fn serve_next(
    connection: Connection,
    number: usize,
    table: &[u8],
    given: &[u8],
    counts: &[u64],
    values: &mut [i64],
    reply: &mut [u8],
) -> TurnedOne
    requires table_value { (sound table.now ≡ true) × (values_sound (room_of table.now) values.old ≡ true) × (64 ≤ length reply.old) }
    requires number_in_bounds { (number < length counts.now) × (total counts.now ≡ length given.now) }
    ensures { ServesNext (room_of table.now) number counts.now given.now values.old reply.old connection result values.new reply.new }
{
    let start = part_start(counts, number);
    let end = start + counts[number] as usize;
    let done = serve_one(connection, table, &given[start..end], values, reply);
    let after = done.connection;
    let answer = done.answer;
    let turned = Turned {
        served: Some(number),
        consumed: answer.consumed,
        sent: answer.sent,
        fault: answer.fault,
        number: answer.number,
    };
    TurnedOne {
        connection: after,
        turned: turned,
    }
}

// A turn that is not refused: nobody waits, or the connection is served as the next that does.
#[tactic(auto, using(crate::proofs::Laws::Turn::Single::Rules::waiting))]
fn serve_waiting(
    connection: Connection,
    flags: [bool; 32],
    last: usize,
    table: &[u8],
    given: &[u8],
    counts: &[u64],
    values: &mut [i64],
    reply: &mut [u8],
) -> TurnedOne
    requires table_value { (sound table.now ≡ true) × (values_sound (room_of table.now) values.old ≡ true) × (64 ≤ length reply.old) }
    requires last_bound { (last ≤ 31) × (length counts.now ≡ 32) × (total counts.now ≡ length given.now) }
    ensures { ServesWaiting (room_of table.now) flags last counts.now given.now values.old reply.old connection result values.new reply.new }
{
    match next_waiting(&flags, counts, last) {
        None => {
            let turned = idle(0);
            TurnedOne {
                connection: connection,
                turned: turned,
            }
        }
        Some(next) => serve_next(connection, next, table, given, counts, values, reply),
    }
}

// The turn, for a connection that is the next that waits where there is one: refused, or as above.
#[tactic(auto, using(crate::proofs::Laws::Turn::Single::Rules::turning))]
pub fn turn_one(
    connection: Connection,
    survey: Survey,
    last: usize,
    table: &[u8],
    given: &[u8],
    counts: &[u64],
    values: &mut [i64],
    reply: &mut [u8],
) -> TurnedOne
    ensures { TurnsOne (room_of table.now) survey last counts.now given.now values.old reply.old connection result values.new reply.new }
{
    let bytes = given.len();
    let room = reply.len();
    if let Err(refusal) = check_turn(survey.few, last, table, values, bytes, counts, room) {
        let turned = idle(refusal.into());
        return TurnedOne {
            connection: connection,
            turned: turned,
        };
    }
    let flags = survey.flags;
    serve_waiting(connection, flags, last, table, given, counts, values, reply)
}

// Takes one connection out of the row, has the turn made for it, and puts it back.
pub(crate) fn turn_at(
    row: &mut [Connection],
    number: usize,
    survey: Survey,
    last: usize,
    table: &[u8],
    given: &[u8],
    counts: &[u64],
    values: &mut [i64],
    reply: &mut [u8],
) -> Turned
    requires { number < length row.old }
    ensures { TurnsAt (room_of table.now) survey last counts.now given.now values.old reply.old row.old number result row.new values.new reply.new }
{
    let connection = row[number];
    let done = turn_one(
        connection, survey, last, table, given, counts, values, reply,
    );
    row[number] = done.connection;
    done.turned
}

// The number of the connection to take out of a row of 32: the next that waits, or 0 where there is none or a turn is refused with 10.
#[tactic(auto, using(crate::specs::Turn::Picking::picking))]
pub fn pick(survey: Survey, counts: &[u64], last: usize) -> usize
    ensures { result ≡ picked survey.flags counts.now last }
{
    if counts.len() != 32 {
        return 0;
    }
    if 31 < last {
        return 0;
    }
    let flags = survey.flags;
    match next_waiting(&flags, counts, last) {
        None => 0,
        Some(next) => next,
    }
}
