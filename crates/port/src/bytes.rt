// Answering the bytes of a read, without input or output.
ghost use Rattle.std.specs.Prelude.{true, ◌≡◌, ◌*◌, ◌≤◌, length};
ghost use Rattle.room.specs.Table.{sound};
ghost use Rattle.values.specs.Room.{room_of};
ghost use Rattle.values.specs.Values.{values_sound};
ghost use Rattle.port.specs.Input.{Answers};

use serial_port::port::Port;
use serial_port::stream::serve_all;

// The port after some bytes, and how many bytes their replies have.
#[derive(Clone, Copy)]
pub struct Answered {
    pub port: Port,
    pub sent: usize,
}

// Answers the given bytes, all of them: `out` has room for as many replies as there are bytes, and so for all.
pub(crate) fn answer_bytes(
    table: &[u8],
    values: &mut [i64],
    port: Port,
    given: &[u8],
    out: &mut [u8],
) -> Answered
    requires table_value { (sound table.now ≡ true) × (values_sound (room_of table.now) values.old ≡ true) }
    requires len_bound { (port.len ≤ 64) × (64 * length given.now ≤ length out.old) }
    ensures { Answers (room_of table.now) values.old port given.now out.old result values.new out.new }
{
    let served = serve_all(table, values, port, given, out);
    let after = served.port;
    Answered {
        port: after,
        sent: served.sent,
    }
}
