// Playing the commands of standard input.
ghost use Rattle.std.specs.Prelude.{true, ◌≡◌, ◌≤◌, length, IfSome};
ghost use Rattle.room.specs.Table.{sound};

use crate::command::{more_of, sum_of};
use crate::play::play;
use connections::connection::{Connection, fresh_row};
use std::io;
use std::io::{Read, Write};
use streams::reading::read_full;
use streams::writing::write_whole;
use values::VALUES;
use values::starts::fill_starts;

// Fills the buffer, unless the input ends or a read fails before it is full.
fn fill(reader: &mut impl Read, buffer: &mut [u8]) -> Option<()> {
    let count = read_full(reader, buffer).ok()?;
    if count < buffer.len() {
        return None;
    }
    Some(())
}

// Reads one command, and returns how many bytes it has: none where the input ends before it does. Which bytes come is outside the proof, so the contract only limits the answer.
fn read_command(reader: &mut impl Read, input: &mut [u8]) -> Option<usize>
    requires { 8193 ≤ length input.old }
    ensures { IfSome result (λ n. n ≤ length input.new) }
{
    fill(reader, &mut input[..1])?;
    let end = 1 + more_of(input[0]);
    fill(reader, &mut input[1..end])?;
    if end != 33 {
        return Some(end);
    }
    let all = 33 + sum_of(&input[1..33]);
    fill(reader, &mut input[33..all])?;
    Some(all)
}

// Plays command after command, until one is none or what it tells can't be written. A proved loop has to end, and nothing says that the input does: so it takes a number of commands
// that no run uses up.
fn play_all(
    reader: &mut impl Read,
    writer: &mut impl Write,
    row: [Connection; 32],
    last: usize,
    table: &[u8],
    values: &mut [i64],
    input: &mut [u8],
    reply: &mut [u8],
) -> io::Result<()>
    requires { 8193 ≤ length input.old }
{
    let mut row = row;
    let mut last = last;
    for _commands in 0..u64::MAX {
        let Some(length) = read_command(reader, input) else {
            return Ok(());
        };
        let played = play(row, last, table, &input[..length], values, reply);
        if played.count == 0 {
            return Ok(());
        }
        write_whole(writer, &played.told[..played.count])?;
        write_whole(writer, &reply[..played.sent])?;
        row = played.row;
        last = played.last;
    }
    Ok(())
}

// Plays standard input from the start values and the fresh row on. It is not laid into `main`, so that a table is refused without the stack for the values.
#[inline(never)]
pub(crate) fn play_input(reader: &mut impl Read, writer: &mut impl Write, table: &[u8])
    requires { sound table.now ≡ true }
{
    let mut space = [0; VALUES];
    let count = fill_starts(table, &mut space);
    // Room for the longest command: a letter, 32 counts and 255 bytes for each.
    let mut input = [0; 8193];
    let mut reply = [0; 64];
    let fresh = fresh_row();
    let _ = play_all(
        reader,
        writer,
        fresh.row,
        fresh.last,
        table,
        &mut space[..count],
        &mut input,
        &mut reply,
    );
}
