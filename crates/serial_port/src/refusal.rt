// Why a port call is refused.
ghost use Rattle.std.specs.Prelude.{◌≡◌};
ghost use Rattle.room.specs.Refusal.{number_of};
ghost use Rattle.values.specs.Room.{room_of};
ghost use Rattle.serial_port.specs.Refusal.{call_number, claim_number, reply_number};

use room::refusal::Refusal;
use room::table::check;
use values::check_values;

// How many bytes a port may hold, and how many bytes a reply buffer must have.
pub const HELD: usize = 64;

pub const REPLY: usize = 64;

// Refuses a reply buffer of `room` bytes that has fewer than the least.
#[tactic(auto, using(crate::specs::Refusal::Number::numbering))]
pub fn check_reply(least: usize, room: usize) -> Result<(), Refusal>
    ensures { number_of result ≡ reply_number least room }
{
    if room < least {
        return Err(Refusal::ReplyBuffer);
    }
    Ok(())
}

// Refuses a port that claims more bytes than it may hold.
#[tactic(auto, using(crate::specs::Refusal::Number::numbering))]
pub(crate) fn check_claim(claimed: usize) -> Result<(), Refusal>
    ensures { number_of result ≡ claim_number claimed }
{
    if claimed <= HELD {
        return Ok(());
    }
    Err(Refusal::HeldBytes)
}

// Refuses a call for the first reason in its order: `room` bytes are there for the reply, and the port claims `claimed`.
#[tactic(auto, using(crate::specs::Refusal::Telling::telling))]
pub(crate) fn check_call(
    table: &[u8],
    values: &[i64],
    room: usize,
    claimed: usize,
) -> Result<(), Refusal>
    ensures { number_of result ≡ call_number (room_of table.now) values.now room claimed }
{
    check(table)?;
    check_values(table, values)?;
    check_reply(REPLY, room)?;
    check_claim(claimed)
}
