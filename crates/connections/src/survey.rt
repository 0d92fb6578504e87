// Looking over a row: which connections are open, and whether each port claims at most 64 bytes.
ghost use Rattle.std.specs.Prelude.{◌&&◌, ◌≡◌, leb, set};
ghost use Rattle.syntax.specs.Shape.{line_limit};
ghost use Rattle.connections.specs.Survey.{noted, nothing_noted, surveyed_from};

use crate::connection::Connection;
use serial_port::refusal::HELD;

// What is noted of the connections of a row.
#[derive(Clone, Copy)]
pub struct Survey {
    pub few: bool,
    pub flags: [bool; 32],
}

// Nothing is noted yet.
pub(crate) fn nothing_noted() -> Survey
    ensures { result ≡ nothing_noted }
{
    Survey {
        few: true,
        flags: [false; 32],
    }
}

// The flags with one of them set; those of a longer row have no place.
#[tactic(auto, using(crate::specs::Survey::Noting::noting))]
fn with_flag(flags: [bool; 32], number: usize, is_open: bool) -> [bool; 32]
    ensures { result ≡ set flags number is_open }
{
    let mut after = flags;
    if number < 32 {
        after[number] = is_open;
    }
    after
}

// Whether all ports claim at most 64 bytes, by whether those before do, and what one more claims.
#[tactic(auto, using(crate::specs::Survey::Noting::noting))]
pub fn still_few(few: bool, claims: usize) -> bool
    ensures { result ≡ (few && leb claims line_limit) }
{
    few && claims <= HELD
}

// How many bytes the port of a connection claims, be it open or closed.
fn claims(connection: Connection) -> usize
    ensures { result ≡ connection.port.len }
{
    connection.port.len
}

// Notes one connection.
#[tactic(auto, using(crate::specs::Survey::Noting::noting))]
fn note(survey: Survey, number: usize, connection: Connection) -> Survey
    ensures { result ≡ noted survey number connection }
{
    Survey {
        few: still_few(survey.few, claims(connection)),
        flags: with_flag(survey.flags, number, connection.is_open),
    }
}

// Looks over a row, in number order, and notes each connection.
#[tactic(auto, using(crate::specs::Survey::Noting::noting))]
pub(crate) fn look_over(row: &[Connection], start: Survey) -> Survey
    ensures { result ≡ surveyed_from 0 row.now start }
{
    let mut survey = start;
    for i in 0..row.len() {
        survey = note(survey, i, row[i]);
    }
    survey
}
