// One read of standard input: what it gives is answered, and the replies are written, before the next.
ghost use Rattle.std.specs.Prelude.{true, ◌≡◌, ◌*◌, ◌≤◌, length};
ghost use Rattle.room.specs.Table.{sound};
ghost use Rattle.values.specs.Room.{room_of};
ghost use Rattle.values.specs.Values.{values_sound};
ghost use Rattle.port.specs.Input.{AnswersRead};

use crate::bytes::answer_bytes;
use serial_port::port::Port;
use std::io::{Read, Write};
use streams::writing::write_whole;

// Why no read follows: nothing came, since the input ended or the read failed; or the replies to so many bytes could not be written.
#[derive(Clone, Copy)]
pub enum Ended {
    Nothing,
    Unwritten(usize),
}

// The port after a read, and how many bytes came, whose replies were written.
#[derive(Clone, Copy)]
pub struct Turn {
    pub port: Port,
    pub came: Result<usize, Ended>,
}

// Reads once, and returns how many bytes came: none where the input ends or the read fails.
fn read_once(reader: &mut impl Read, buffer: &mut [u8]) -> usize
    ensures { result ≤ length buffer.new }
{
    reader.read(buffer).unwrap_or(0)
}

// Answers one read. Which bytes come, and which are written, is outside the proof.
pub(crate) fn answer_read(
    reader: &mut impl Read,
    writer: &mut impl Write,
    table: &[u8],
    values: &mut [i64],
    port: Port,
    input: &mut [u8],
    out: &mut [u8],
) -> Turn
    requires table_value { (sound table.now ≡ true) × (values_sound (room_of table.now) values.old ≡ true) }
    requires len_bound { (port.len ≤ 64) × (64 * length input.old ≤ length out.old) }
    ensures { AnswersRead (room_of table.now) values.old port input.new out.old result values.new out.new }
{
    let count = read_once(reader, input);
    if count == 0 {
        return Turn {
            port,
            came: Err(Ended::Nothing),
        };
    }
    let answered = answer_bytes(table, values, port, &input[..count], out);
    let came = match write_whole(writer, &out[..answered.sent]) {
        Ok(()) => Ok(count),
        Err(_) => Err(Ended::Unwritten(count)),
    };
    Turn {
        port: answered.port,
        came,
    }
}
