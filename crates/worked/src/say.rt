// What the program prints.
ghost use Rattle.std.specs.Prelude.{◌≡◌, ◌≤◌};
ghost use Rattle.line_log.specs.Log.{log_label, placed};
ghost use Rattle.worked.specs.Script.{first_line};

use crate::play::Tally;
use line_log::log_label;
use text::cut::find;

// A text that cannot be written is left out.
fn say(out: &impl Print, text: &[u8]) {
    let _ = out.write_all(text);
}

fn say_number(out: &impl Print, n: usize) {
    let _ = print!(out; "{n}");
}

// The label that the first line of a script means.
fn label_of<'a>(table: &'a [u8], script: &'a [u8]) -> &'a [u8]
    ensures { placed result ≡ log_label table.entry (record script.entry { now = first_line script.now }) }
{
    let end = find(script, 0x0D);
    log_label(table, &script[..end])
}

// A line with a wrong answer, and the label that it means.
fn say_wrong(out: &impl Print, line: usize, label: &[u8]) {
    say(out, b": wrong answer to line ");
    say_number(out, line);
    say(out, b", label ");
    say(out, label);
    say(out, b"\n");
}

// What came of a script.
pub(crate) fn say_tally<'a>(
    out: &impl Print,
    name: &[u8],
    table: &'a [u8],
    script: &'a [u8],
    tally: Tally,
)
    requires { tally.right ≤ tally.at }
{
    let at = tally.at;
    say(out, name);
    if at < script.len() {
        say_wrong(out, tally.right + 1, label_of(table, &script[at..]));
        return;
    }
    say(out, b": ");
    say_number(out, tally.right);
    say(out, b" lines, each answered as it must be\n");
}

// Whether a restore list is as it must be.
pub(crate) fn say_list(out: &impl Print, name: &[u8], right: bool) {
    say(out, name);
    if right {
        say(out, b": as it must be\n");
        return;
    }
    say(out, b": not as it must be\n");
}
