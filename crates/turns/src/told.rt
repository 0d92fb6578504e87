// What is written of a turn before its reply.
ghost use Rattle.std.specs.Prelude.{◌≡◌, ◌%◌};
ghost use Rattle.turns.specs.Play.{fault_bytes, told_bytes};

use connections::turning::Turned;
use syntax::cause::Malformed;

// The last byte of a number.
fn byte_of(number: usize) -> u8
    ensures { result ≡ number % 256 }
{
    (number % 256) as u8
}

// The number of the cause, and its place; zeros where there is none.
#[tactic(auto, using(crate::specs::Play::Telling::faults))]
fn fault_bytes(fault: Option<Malformed>) -> [u8; 2]
    ensures { result ≡ fault_bytes fault }
{
    match fault {
        None => [0, 0],
        Some(m) => [u8::from(m.cause), byte_of(m.place)],
    }
}

// The number of a refusal or 0, 1 and the connection that was served or zeros, the bytes consumed, the length of the reply, the cause of a 99 and its place.
#[tactic(auto, using(crate::specs::Play::Telling::telling))]
pub(crate) fn told_bytes(turned: Turned) -> [u8; 7]
    ensures { result ≡ told_bytes turned }
{
    let consumed = byte_of(turned.consumed);
    let sent = byte_of(turned.sent);
    let fault = fault_bytes(turned.fault);
    match turned.served {
        None => [turned.number, 0, 0, consumed, sent, fault[0], fault[1]],
        Some(one) => {
            let which = byte_of(one);
            [turned.number, 1, which, consumed, sent, fault[0], fault[1]]
        }
    }
}
