// A connection: open or closed, with its own port. Opening and closing.
ghost use Rattle.std.specs.Prelude.{◌≡◌};
ghost use Rattle.connections.specs.Connections.{FreshRow, SwitchesOne, Switches, changes, is_place};

use serial_port::port::Port;

#[derive(Clone, Copy)]
pub struct Connection {
    pub is_open: bool,
    pub port: Port,
}

// A row, and the last served.
#[derive(Clone, Copy)]
pub struct Fresh {
    pub row: [Connection; 32],
    pub last: usize,
}

// A connection after it was to be opened or closed, and the number of a refusal or 0.
#[derive(Clone, Copy)]
pub struct Switched {
    pub connection: Connection,
    pub number: u8,
}

// Whether a connection that is to be open, or to be closed, is not so yet.
#[tactic(auto, using(crate::specs::Connections::Switching::switching))]
pub fn is_change(want: bool, is_open: bool) -> bool
    ensures { result ≡ changes want is_open }
{
    if want { !is_open } else { is_open }
}

// Opens or closes one connection, with a fresh port; 10 where it is so already.
#[tactic(auto, using(crate::specs::Connections::Switching::switching))]
fn switch_one(connection: Connection, want: bool) -> Switched
    ensures { SwitchesOne want connection result }
{
    if !is_change(want, connection.is_open) {
        return Switched {
            connection,
            number: 10,
        };
    }
    Switched {
        connection: Connection {
            is_open: want,
            port: Port::fresh(),
        },
        number: 0,
    }
}

// Whether a row of `count` connections is one of 32, and the number is not over 31.
#[tactic(auto, using(crate::specs::Connections::Switching::places))]
fn is_place(count: usize, number: usize) -> bool
    ensures { result ≡ is_place count number }
{
    count == 32 && number <= 31
}

// Opens a connection of a row (`want` is true) or closes it: it is taken out, opened or closed, and put back. 10 where there is none with the number.
pub fn switch(row: &mut [Connection], number: usize, want: bool) -> u8
    ensures { Switches want row.old number result row.new }
{
    if is_place(row.len(), number) {
        let connection = row[number];
        let done = switch_one(connection, want);
        row[number] = done.connection;
        return done.number;
    }
    10
}

// The fresh row: 32 connections, all closed. The last served is then 31, so connection 0 comes first.
pub fn fresh_row() -> Fresh
    ensures { FreshRow result }
{
    let closed = Connection {
        is_open: false,
        port: Port::fresh(),
    };
    Fresh {
        row: [closed; 32],
        last: 31,
    }
}
