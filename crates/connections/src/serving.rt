// Serving one connection: one call of its port.
ghost use Rattle.std.specs.Prelude.{true, ◌≡◌, ◌≤◌, length};
ghost use Rattle.room.specs.Table.{sound};
ghost use Rattle.values.specs.Room.{room_of};
ghost use Rattle.values.specs.Values.{values_sound};
ghost use Rattle.connections.specs.Serving.{Serves};

use crate::connection::Connection;
use serial_port::port::Port;
use syntax::cause::Malformed;

// What the port call of a connection answered: how many bytes it consumed and sent, why the reply is 99, and the number of a refusal or 0.
#[derive(Clone, Copy)]
pub struct PortAnswer {
    pub consumed: usize,
    pub sent: usize,
    pub fault: Option<Malformed>,
    pub number: u8,
}

// A connection after its port call, and what that answered.
#[derive(Clone, Copy)]
pub struct ServedOne {
    pub connection: Connection,
    pub answer: PortAnswer,
}

// Calls the port of a connection, which stays open or closed as it is; table, values and reply buffer were tested already.
pub(crate) fn serve_one(
    connection: Connection,
    table: &[u8],
    bytes: &[u8],
    values: &mut [i64],
    reply: &mut [u8],
) -> ServedOne
    requires { (sound table.now ≡ true) × (values_sound (room_of table.now) values.old ≡ true) × (64 ≤ length reply.old) }
    ensures { Serves (room_of table.now) connection bytes.now values.old reply.old result values.new reply.new }
{
    let port = connection.port;
    let called = port.take_tested(table, values, bytes, reply);
    let after = called.port;
    let fault = called.fault;
    let back = Connection {
        is_open: connection.is_open,
        port: after,
    };
    let answer = PortAnswer {
        consumed: called.consumed,
        sent: called.sent,
        fault: fault,
        number: called.number,
    };
    ServedOne {
        connection: back,
        answer: answer,
    }
}
