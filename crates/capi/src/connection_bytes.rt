// What C lends: 32 connections as 2,144 bytes.
ghost use Rattle.std.specs.Prelude.{◌≡◌, ◌+◌, ◌<◌, ◌≤◌, drop, get_or, length, take};
ghost use Rattle.connections.specs.Connections.{closed};
ghost use Rattle.connections.specs.Survey.{nothing_noted, surveyed_from};
ghost use Rattle.capi.specs.Connections.{row_of, switch_answer, switch_tells};
ghost use Rattle.capi.specs.Connections.Storing.{StoresServed};

use crate::port_bytes::{count, flag_byte, port_of, store};
use connections::connection::{Connection, is_change};
use connections::survey::{Survey, still_few};
use serial_port::port::Port;
use text::written::put_bytes;

// What is noted of all connections. No port is taken out for that.
pub(crate) fn survey_of(row: &[u8]) -> Survey
    requires { length row.now ≡ 2144 }
    ensures { result ≡ surveyed_from 0 (row_of row.now) nothing_noted }
{
    let mut few = true;
    let mut flags = [false; 32];
    let mut i = 0;
    while i < 32 {
        let start = 67 * i;
        flags[i] = row[start] != 0;
        few = still_few(few, count(row[start + 1]));
        i += 1;
    }
    Survey {
        few: few,
        flags: flags,
    }
}

// The 66 bytes of a port, from `first` on.
fn port_part(row: &[u8], first: usize) -> [u8; 66]
    requires { first + 66 ≤ length row.now }
    ensures { result ≡ take 66 (drop first row.now) }
{
    let mut part = [0u8; 66];
    let end = first + 66;
    put_bytes(&mut part, 0, &row[first..end]);
    part
}

// One connection, taken out of the row.
pub(crate) fn connection_at(row: &[u8], number: usize) -> Connection
    requires { (length row.now ≡ 2144) × (number < 32) }
    ensures { result ≡ get_or (row_of row.now) number closed }
{
    let start = 67 * number;
    let part = port_part(row, start + 1);
    let port = port_of(&part);
    Connection {
        is_open: row[start] != 0,
        port: port,
    }
}

// Stores a connection that was served: open, with its port.
pub(crate) fn store_served(row: &mut [u8], number: usize, port: Port)
    requires { (length row.old ≡ 2144) × (number < 32) × (port.len ≤ 64) }
    ensures { StoresServed row.old number port row.new }
{
    let at = 67 * number;
    let mut bytes = [0u8; 66];
    store(&mut bytes, port);
    row[at] = 1;
    put_bytes(row, at + 1, &bytes);
}

// Opens or closes a connection: its flag, and a count and an overrun of 0, are stored.
pub(crate) fn switch_bytes(row: &mut [u8], number: u64, want: bool) -> u8
    ensures { switch_tells result row.new ≡ switch_answer want row.old number }
{
    if row.len() != 2144 {
        return 10;
    }
    if 31 < number {
        return 10;
    }
    let start = 67 * (number as usize);
    let is_open = row[start] != 0;
    if !is_change(want, is_open) {
        return 10;
    }
    row[start] = flag_byte(want);
    row[start + 1] = 0;
    row[start + 2] = 0;
    0
}
