// Where the label that a line means stands, for the log: in the table or in the line.
ghost use Rattle.std.specs.Prelude.{true, ◌≡◌, ◌≤◌, length};
ghost use Rattle.text.specs.Cut.{part};
ghost use Rattle.room.specs.Label.{bearer};
ghost use Rattle.room.specs.Table.{sound};
ghost use Rattle.line_log.specs.LogPart.{log_part, shown};

use room::label::find_bearer;
use room::table::is_sound;
use text::cut::find;

// A part of the table or of the line, from a start to an end.
#[derive(Clone, Copy)]
pub enum LogPart {
    Table(usize, usize),
    Line(usize, usize),
}

// Which part shows the text from a start to an end of the line.
fn part_shown(table: &[u8], line: &[u8], start: usize, end: usize) -> LogPart
    requires table_value { sound table.now ≡ true }
    requires start_le_end { (start ≤ end) × (end ≤ length line.now) }
    ensures { result ≡ shown start end (bearer table.now (part line.now start end)) }
{
    match find_bearer(table, &line[start..end]) {
        Some(m) => {
            let label = m.place + 1;
            LogPart::Table(label, label + (end - start))
        }
        None => LogPart::Line(start, end),
    }
}

// Which part of the table or of the line shows the label that a line means: none where the table is not sound or the line has fewer than two quotes.
pub fn log_part(table: &[u8], line: &[u8]) -> Option<LogPart>
    ensures { result ≡ log_part table.now line.now }
{
    if !is_sound(table) {
        return None;
    }
    let first = find(line, b'"');
    if line.len() <= first {
        return None;
    }
    let start = first + 1;
    let end = start + find(&line[start..], b'"');
    if line.len() <= end {
        return None;
    }
    Some(part_shown(table, line, start, end))
}
