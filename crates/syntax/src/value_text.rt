// The value text of a set line.
ghost use Rattle.std.specs.Prelude.{true, ◌≡◌, ◌<◌, ◌≤◌, ◌^◌, nat_abs};
ghost use Rattle.std.specs.Int.Signed.{mag};
ghost use Rattle.text.specs.Number.{read_number};
ghost use Rattle.text.specs.Switch.{read_switch};
ghost use Rattle.text.specs.Word.{read_hex};
ghost use Rattle.catalogue.specs.Row.{RowFits, permitted};
ghost use Rattle.syntax.specs.Value.{OutputIn, of_number, of_switch, of_word, read_kind, read_output, read_part, read_value};

use catalogue::groups::Part;
use catalogue::row::{Kind, Row, permits};
use text::level::read_level;
use text::number::read_number;
use text::sign::magnitude;
use text::switch::{Switch, read_switch};
use text::word::{bit_of, read_word, with_bit};

fn number_value(text: &[u8]) -> Option<i64>
    ensures { result ≡ of_number (read_number 5 text.now) }
{
    Some(read_number(text, 5)? as i64)
}

// `T` turns the present value over.
fn switch_value(present: i64, text: &[u8]) -> Option<i64>
    requires { mag present < 2 ^ 62 }
    ensures { result ≡ of_switch present (read_switch text.now) }
{
    match read_switch(text)? {
        Switch::On => Some(1),
        Switch::Off => Some(0),
        Switch::Turn => Some(1 - present),
    }
}

fn word_value(text: &[u8]) -> Option<i64>
    ensures { result ≡ of_word (read_hex text.now) }
{
    Some(read_word(text)? as i64)
}

// The value that a text says in its kind's form.
fn kind_value(kind: Kind, present: i64, text: &[u8]) -> Option<i64>
    requires { mag present < 2 ^ 62 }
    ensures { result ≡ read_kind kind present text.now }
{
    match kind {
        Kind::Level => read_level(text),
        Kind::Switch => switch_value(present, text),
        Kind::Number => number_value(text),
        Kind::Word => word_value(text),
    }
}

// The routing word with one output as a switch's text says, and every other as it is.
fn output_value(output: u64, present: i64, text: &[u8]) -> Option<i64>
    requires le_output { 1 ≤ output }
    requires output_bound { output ≤ 32 }
    requires present_bound { nat_abs present < 2 ^ 32 }
    ensures { result ≡ read_output output present text.now }
{
    let word = magnitude(present);
    let had = bit_of(output, word) as i64;
    let b = switch_value(had, text)?;
    Some(with_bit(output, magnitude(b), word) as i64)
}

// The value that a text says of a part.
fn part_value(kind: Kind, part: Part, present: i64, text: &[u8]) -> Option<i64>
    requires present_bound { mag present < 2 ^ 62 }
    requires output_in { OutputIn part present }
    ensures { result ≡ read_part kind part present text.now }
{
    match part {
        Part::Whole => kind_value(kind, present, text),
        Part::Output(o) => output_value(o, present, text),
    }
}

// The value that a set line puts: the row may be set, the text has the form of the part that the line names, and the value is permitted.
pub fn read_value(row: Row, part: Part, present: i64, text: &[u8]) -> Option<i64>
    requires row_fits { RowFits row }
    requires present_value { permitted row present ≡ true }
    requires output_in { OutputIn part present }
    ensures { result ≡ read_value row part present text.now }
{
    if !row.settable {
        return None;
    }
    let v = part_value(row.kind, part, present, text)?;
    if permits(row, v) { Some(v) } else { None }
}
