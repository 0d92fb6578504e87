// Serves the lines of standard input over the module table in the file `table`, and writes the replies alone.
#![tactic(auto)]

mod bytes;
mod input;
mod standard_input;

use crate::input::serve_input;
use room::table::is_sound;
use std::io::Write;
use streams::reading::read_file;
use streams::writing::write_whole;

// How many bytes a table may have.
const TABLE: usize = 2240;

fn refuse(writer: &mut impl Write) {
    let _ = write_whole(writer, b"refused 1\r");
}

fn main(rt: HostRuntime) {
    let mut reader = rt.stdin();
    let mut writer = rt.stdout();
    // One byte more than the longest table has, by which a longer one is seen.
    let mut space = [0; 2241];
    let Ok(length) = read_file(&rt, b"table", &mut space) else {
        refuse(&mut writer);
        return;
    };
    if TABLE < length || !is_sound(&space[..length]) {
        refuse(&mut writer);
        return;
    }
    serve_input(&mut reader, &mut writer, &space[..length]);
}
