// A script played on a room: lines, each with its 0D, and behind each the reply that it must get. All go through one port, call after call.
ghost use Rattle.std.specs.Prelude.{true, ◌≡◌, ◌≤◌, length};
ghost use Rattle.room.specs.Table.{sound};
ghost use Rattle.values.specs.Room.{room_of};
ghost use Rattle.values.specs.Values.{values_sound};
ghost use Rattle.worked.specs.Script.{Plays, outcome, tally, told};
ghost use Rattle.worked.specs.Script.{through as script_through};

use crate::compare::same_bytes;
use room::table::is_sound;
use serial_port::port::Port;
use text::cut::find;
use values::VALUES;
use values::starts::fill_starts;

// How many lines, from the first on, were answered as the script says, and where it goes on behind them: its end where all were.
#[derive(Clone, Copy)]
pub struct Tally {
    pub right: usize,
    pub at: usize,
}

// The port after a line, how many bytes the line and the reply that the script says have, and whether the answer was that reply.
#[derive(Clone, Copy)]
pub struct Played {
    pub port: Port,
    pub passed: usize,
    pub right: bool,
}

// The bytes through the first 0D: all, where there is none.
fn through(s: &[u8]) -> &[u8]
    ensures { result.now ≡ script_through s.now }
{
    let end = find(s, 0x0D);
    if end == s.len() {
        return s;
    }
    &s[..end + 1]
}

// Plays the first line of a script.
fn play_line(table: &[u8], values: &mut [i64], port: Port, script: &[u8]) -> Played
    requires { (sound table.now ≡ true) × (values_sound (room_of table.now) values.old ≡ true) × (port.len ≤ 64) }
    ensures { Plays (room_of table.now) values.old port script.now result values.new }
{
    let mut reply = [0u8; Port::REPLY];
    let called = port.take(table, values, script, &mut reply);
    let line = called.consumed;
    let sent = called.sent;
    let must = through(&script[line..]);
    let right = same_bytes(&reply[..sent], must);
    let after = called.port;
    Played {
        port: after,
        passed: line + must.len(),
        right,
    }
}

// Plays a script line by line, up to the first wrong answer.
fn play_lines(table: &[u8], values: &mut [i64], script: &[u8]) -> Tally
    requires { (sound table.now ≡ true) × (values_sound (room_of table.now) values.old ≡ true) }
    ensures { told result values.new ≡ outcome (room_of table.now) values.old script.now }
{
    let mut port = Port::fresh();
    let mut at = 0;
    let mut right = 0;
    // The next line begins where the last one ended, and lines differ in length.
    while at < script.len() {
        let played = play_line(table, values, port, &script[at..]);
        if !played.right {
            return Tally { right, at };
        }
        port = played.port;
        at += played.passed;
        right += 1;
    }
    Tally { right, at }
}

// Plays a script on a table, from its start values on.
pub(crate) fn play_script(table: &[u8], script: &[u8]) -> Tally
    ensures { result ≡ tally table.now script.now }
{
    if !is_sound(table) {
        return Tally { right: 0, at: 0 };
    }
    let mut space = [0; VALUES];
    let count = fill_starts(table, &mut space);
    play_lines(table, &mut space[..count], script)
}
