// Plays worked lines: for each pair of arguments a table, and a script of lines, each followed by the reply that it must get. Then the restore
// lists of the paper, each compared with the list that must come. What is expected wrongly is reported so.
#![tactic(auto)]

mod argument;
mod compare;
mod file;
mod lists;
mod play;
mod say;

ghost use Rattle.std.specs.Prelude.{◌≤◌};

use argument::{argument, argument_count};
use file::read_file;
use lists::list_right;
use play::play_script;
use say::{say_list, say_tally};
use std::rt::{Env, Files};

// How many bytes a table may have.
const TABLE: usize = 2240;

// Room for a name, a script or a list.
const TEXT: usize = 4096;

// Plays the script of a file on the table of another, and says what came of it.
fn play_file(rt: &(impl Files + Print), table: &[u8], script: &[u8]) {
    let mut records = [0; TABLE];
    let n = read_file(rt, table, &mut records);
    let mut text = [0; TEXT];
    let m = read_file(rt, script, &mut text);
    let tally = play_script(&records[..n], &text[..m]);
    say_tally(rt, script, &records[..n], &text[..m], tally);
}

// The same for the files that two arguments name.
fn play_arguments(rt: &(impl Files + Env + Print), i: usize, j: usize) {
    let mut table = [0; TEXT];
    let n = argument(rt, i, &mut table);
    let mut script = [0; TEXT];
    let m = argument(rt, j, &mut script);
    play_file(rt, &table[..n], &script[..m]);
}

// Asks for the list of the paper's wish, all values 0, and says whether it is the list of a file: S is chosen, and T where its byte is 1.
fn list_file(
    rt: &(impl Files + Print),
    table: &[u8],
    t: u8,
    room: usize,
    number: u8,
    lines: usize,
    file: &[u8],
)
    requires { room ≤ 64 }
{
    let mut text = [0; TEXT];
    let n = read_file(rt, file, &mut text);
    let mut buffer = [0u8; 64];
    let right = list_right(
        table,
        &[0; 7],
        &[t, 1],
        &[-40, 1, 5, 0, 0, 0, 1],
        &mut buffer[..room],
        number,
        lines,
        &text[..n],
    );
    say_list(rt, file, right);
}

// The lists on table A: T and S, with room for 43 bytes and for 42; S alone; and one that is expected wrongly.
fn list_files(rt: &(impl Files + Print)) {
    let mut records = [0; TABLE];
    let n = read_file(rt, b"a.table", &mut records);
    let table = &records[..n];
    list_file(rt, table, 1, 43, 0, 4, b"both.list");
    list_file(rt, table, 1, 42, 8, 0, b"refused.list");
    list_file(rt, table, 0, 10, 0, 1, b"s.list");
    list_file(rt, table, 0, 10, 0, 1, b"wrong.list");
}

fn main(rt: HostRuntime) {
    let pairs = argument_count(&rt) / 2;
    for k in 0..pairs {
        play_arguments(&rt, 2 * k + 1, 2 * k + 2);
    }
    list_files(&rt);
}
