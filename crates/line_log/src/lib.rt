// The label that the log shows of a line.
#![tactic(auto)]

pub mod part;

ghost use Rattle.std.specs.Prelude.{◌≡◌};
ghost use Rattle.line_log.specs.Log.{log_label, placed};

use crate::part::{LogPart, log_part};

// The label that a line means, as it stands in the table or in the line.
pub fn log_label<'a>(table: &'a [u8], line: &'a [u8]) -> &'a [u8]
    ensures { placed result ≡ log_label table.entry line.entry }
{
    match log_part(table, line) {
        Some(LogPart::Table(start, end)) => &table[start..end],
        Some(LogPart::Line(start, end)) => &line[start..end],
        None => &line[..0],
    }
}
