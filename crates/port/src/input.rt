// Serving standard input from the start values on.
ghost use Rattle.std.specs.Prelude.{true, ◌≡◌, ◌*◌, ◌≤◌, length};
ghost use Rattle.room.specs.Table.{sound};
ghost use Rattle.values.specs.Room.{room_of};
ghost use Rattle.values.specs.Values.{values_sound};
ghost use Rattle.port.specs.Input.{AnswersAll};

use crate::standard_input::{Turn, answer_read};
use serial_port::port::Port;
use std::io::{Read, Write};
use values::VALUES;
use values::starts::fill_starts;

// Answers read after read, until the input ends or a reply cannot be written, and returns the last turn. A proved loop has to end, and nothing says
// that the input does: so it takes a number of turns that no run uses up.
fn answer_all(
    reader: &mut impl Read,
    writer: &mut impl Write,
    table: &[u8],
    values: &mut [i64],
    port: Port,
    input: &mut [u8],
    out: &mut [u8],
) -> Turn
    requires table_value { (sound table.now ≡ true) × (values_sound (room_of table.now) values.old ≡ true) }
    requires len_bound { (port.len ≤ 64) × (64 * length input.old ≤ length out.old) }
    ensures { AnswersAll (room_of table.now) values.old port result values.new }
{
    let mut port = port;
    for _turns in 0..u64::MAX {
        let turn = answer_read(reader, writer, table, values, port, input, out);
        if turn.came.is_err() {
            return turn;
        }
        port = turn.port;
    }
    answer_read(reader, writer, table, values, port, input, out)
}

// Serves standard input from the start values on.
pub(crate) fn serve_input(reader: &mut impl Read, writer: &mut impl Write, table: &[u8])
    requires { sound table.now ≡ true }
{
    let mut space = [0; VALUES];
    let count = fill_starts(table, &mut space);
    let mut input = [0; 1024];
    // Room for a reply to each byte of a read.
    let mut out = [0; 65536];
    answer_all(
        reader,
        writer,
        table,
        &mut space[..count],
        Port::fresh(),
        &mut input,
        &mut out,
    );
}
