// The library's calls for C: each is thin over the proved library, and none asks anything of its caller.
#![tactic(auto)]

pub mod connection_bytes;
pub mod fault;
pub mod place;
pub mod port_bytes;
pub mod refusal;
pub mod row;
pub mod turn;
pub mod value_list;

ghost use Rattle.std.specs.Prelude.{[], ◌∷◌, ◌≡◌};
ghost use Rattle.room.specs.Table.{table_number};
ghost use Rattle.values.specs.Room.{room_of};
ghost use Rattle.wish.specs.Target.{wish_of};
ghost use Rattle.restore.specs.Restored.{restored};
ghost use Rattle.capi.specs.Log.{log_answer};
ghost use Rattle.capi.specs.Panel.{panel_answer, panel_tells};
ghost use Rattle.capi.specs.Port.{PortCalled};
ghost use Rattle.capi.specs.Restore.{restore_answer, restore_tells, size_answer, size_tells};

use crate::fault::fault_numbers;
use crate::port_bytes::{port_of, store};
use line_log::part::{LogPart, log_part};
use panel::change;
use restore::{restore_size, restore_write};
use restore_list::module_measuring::Size;
use room::refusal::{Refusal, number_of};
use room::table::check;

// Whether a table is sound: 0, or the refusal's number, 1.
#[unsafe(no_mangle)]
pub extern "C" fn egrivundo_table(table: &[u8]) -> u8
    ensures { result ≡ table_number table.now }
{
    number_of(check(table))
}

// The label that a line means, for the log: `told` becomes 1 for the table or 0 for the line, the start of the part, and its length.
#[unsafe(no_mangle)]
pub extern "C" fn egrivundo_log(table: &[u8], line: &[u8], told: &mut [u64; 3])
    ensures { told.new ≡ log_answer table.now line.now }
{
    match log_part(table, line) {
        Some(LogPart::Table(start, end)) => {
            *told = [1, start as u64, (end - start) as u64];
        }
        Some(LogPart::Line(start, end)) => {
            *told = [0, start as u64, (end - start) as u64];
        }
        None => {
            *told = [0, 0, 0];
        }
    }
}

// The port call: `told` becomes the bytes consumed, the reply's length, and the cause and place of a 99. The port is stored only where bytes are given, as none change nothing.
#[unsafe(no_mangle)]
pub extern "C" fn egrivundo_port(
    table: &[u8],
    values: &mut [i64],
    port: &mut [u8; 66],
    given: &[u8],
    reply: &mut [u8],
    told: &mut [u64; 4],
) -> u8
    ensures { PortCalled (room_of table.now) values.old port.old given.now reply.old result values.new port.new reply.new told.new }
{
    let called = port_of(port).take(table, values, given, reply);
    let why = called.fault;
    let fault = fault_numbers(why);
    let consumed = called.consumed as u64;
    let sent = called.sent as u64;
    *told = [consumed, sent, fault[0], fault[1]];
    if called.number != 0 {
        return called.number;
    }
    if given.len() != 0 {
        store(port, called.port);
        return 0;
    }
    0
}

// The panel call: changes one value by the numbers of its module and of its row, both counted from 0; `told` becomes the length of what is told of it.
#[unsafe(no_mangle)]
pub extern "C" fn egrivundo_panel(
    table: &[u8],
    values: &mut [i64],
    owner: u64,
    row: u64,
    value: i64,
    reply: &mut [u8],
    told: &mut [u64; 1],
) -> u8
    ensures { panel_tells result told.new values.new reply.new ≡ panel_answer (room_of table.now) values.old reply.old owner row value }
{
    let changed = change(table, values, owner as usize, row as usize, value, reply);
    *told = [changed.unwrap_or(0) as u64];
    number_of(changed)
}

// The bytes and the lines of a list; a refusal counts zero.
fn size_told(sized: Result<Size, Refusal>) -> [u64; 2]
    ensures { result ≡ (restored sized).bytes ∷ (restored sized).lines ∷ [] }
{
    match sized {
        Ok(size) => [size.bytes as u64, size.lines as u64],
        Err(_) => [0, 0],
    }
}

// The size call: `told` becomes the bytes and the lines of the list that the writing call writes.
#[unsafe(no_mangle)]
pub extern "C" fn egrivundo_restore_size(
    table: &[u8],
    present: &[i64],
    selection: &[u8],
    wanted: &[i64],
    told: &mut [u64; 2],
) -> u8
    ensures { size_tells result told.new ≡ size_answer (wish_of table.now present.now selection.now wanted.now) }
{
    let sized = restore_size(table, present, selection, wanted);
    *told = size_told(sized);
    number_of(sized)
}

// The writing call: `told` becomes the bytes and the lines written.
#[unsafe(no_mangle)]
pub extern "C" fn egrivundo_restore_write(
    table: &[u8],
    present: &[i64],
    selection: &[u8],
    wanted: &[i64],
    list: &mut [u8],
    told: &mut [u64; 2],
) -> u8
    ensures { restore_tells result told.new list.new ≡ restore_answer (wish_of table.now present.now selection.now wanted.now) list.old }
{
    let restored = restore_write(table, present, selection, wanted, list);
    *told = size_told(restored);
    number_of(restored)
}
