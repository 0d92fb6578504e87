// Why a turn over a row of 32 is refused.
ghost use Rattle.std.specs.Prelude.{◌≡◌};
ghost use Rattle.room.specs.Refusal.{number_of};
ghost use Rattle.values.specs.Room.{room_of};
ghost use Rattle.connections.specs.Turn.Number.{claims_number, fit_number, number_by};

use crate::parts::counts_right;
use room::refusal::Refusal;
use room::table::check;
use serial_port::refusal::{REPLY, check_reply};
use values::check_values;

// Refuses counts that do not divide the bytes, and a last served over 31.
#[tactic(auto, using(crate::specs::Turn::Number::numbering))]
fn check_fit(counts: &[u64], bytes: usize, last: usize) -> Result<(), Refusal>
    ensures { number_of result ≡ fit_number counts.now bytes last }
{
    if !counts_right(counts, bytes) {
        return Err(Refusal::Connections);
    }
    if 31 < last {
        return Err(Refusal::Connections);
    }
    Ok(())
}

// Refuses a row in which not every port claims at most 64 bytes.
#[tactic(auto, unfolding(crate::specs::Turn::Number::claims_number))]
fn check_claims(few: bool) -> Result<(), Refusal>
    ensures { number_of result ≡ claims_number few }
{
    if few {
        return Ok(());
    }
    Err(Refusal::HeldBytes)
}

// Refuses a turn for the first reason in its order: `few` was noted of the ports, `bytes` wait in all, and `room` bytes are there for the reply.
#[tactic(auto, using(crate::specs::Turn::Number::numbering))]
pub(crate) fn check_turn(
    few: bool,
    last: usize,
    table: &[u8],
    values: &[i64],
    bytes: usize,
    counts: &[u64],
    room: usize,
) -> Result<(), Refusal>
    ensures { number_of result ≡ number_by (room_of table.now) few last counts.now bytes values.now room }
{
    check_fit(counts, bytes, last)?;
    check(table)?;
    check_values(table, values)?;
    check_reply(REPLY, room)?;
    check_claims(few)
}
