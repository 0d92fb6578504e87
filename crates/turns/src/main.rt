// Plays the commands of standard input over a row of 32 connections and the module table in the file `table`, and writes what each tells, and its reply.
#![tactic(auto)]

mod command;
mod input;
mod play;
mod told;

use crate::input::play_input;
use room::table::is_sound;
use std::fs::File;
use std::io::Write;
use streams::reading::read_full;
use streams::writing::write_whole;

fn refuse(writer: &mut impl Write) {
    let _ = write_whole(writer, b"refused 1\r");
}

fn main(rt: HostRuntime) {
    let mut reader = rt.stdin();
    let mut writer = rt.stdout();
    // The file is opened before there is a buffer, so that the copies of its name and the buffer take the same stack.
    let Ok(mut file) = File::open(&rt, "table") else {
        refuse(&mut writer);
        return;
    };
    let mut space = [0; 4096];
    let length = match read_full(&mut file, &mut space) {
        Ok(length) => length,
        // A table that was read in part is tested as far as it came.
        Err(unread) => unread.bytes_read(),
    };
    if !is_sound(&space[..length]) {
        refuse(&mut writer);
        return;
    }
    play_input(&mut reader, &mut writer, &space[..length]);
}
