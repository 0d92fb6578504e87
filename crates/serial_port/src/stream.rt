// Serving a stream of bytes: calls one after the other, and their replies one after the other.
ghost use Rattle.std.specs.Prelude.{true, ◌≡◌, ◌≤◌};
ghost use Rattle.room.specs.Table.{sound};
ghost use Rattle.values.specs.Room.{room_of};
ghost use Rattle.values.specs.Values.{values_sound};
ghost use Rattle.serial_port.specs.Stream.{Serves};

use crate::port::Port;

// The port handed back, and how many bytes were consumed and how many sent as replies.
#[derive(Clone, Copy)]
pub struct Served {
    pub port: Port,
    pub consumed: usize,
    pub sent: usize,
}

// Serves the given bytes until all are consumed or `out` has no room for another reply.
pub fn serve_all(
    table: &[u8],
    values: &mut [i64],
    port: Port,
    given: &[u8],
    out: &mut [u8],
) -> Served
    requires table_value { (sound table.now ≡ true) × (values_sound (room_of table.now) values.old ≡ true) }
    requires len_bound { port.len ≤ 64 }
    ensures { Serves (room_of table.now) values.old port given.now out.old result values.new out.new }
{
    let mut port = port;
    let mut at = 0;
    let mut end = 0;
    // A turn moves on by what its call consumes, which is no count of an iterator.
    while at < given.len() {
        if out.len() - end < Port::REPLY {
            return Served {
                port: port,
                consumed: at,
                sent: end,
            };
        }
        let called = port.serve(table, values, &given[at..], &mut out[end..]);
        port = called.port;
        at += called.consumed;
        end += called.sent;
    }
    Served {
        port: port,
        consumed: at,
        sent: end,
    }
}
