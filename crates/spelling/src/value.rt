// A value's text, whole or of a part: how long it is, and writing it.
ghost use Rattle.std.specs.Prelude.{◌≡◌, ◌+◌, ◌≤◌, nat_abs, length};
ghost use Rattle.catalogue.specs.Groups.{PartIn};
ghost use Rattle.text.specs.Switch.{switch_text};
ghost use Rattle.text.specs.Word.{bit};
ghost use Rattle.text.specs.Written.{Wrote};
ghost use Rattle.spelling.specs.Text.{part_text, text_of};

use catalogue::groups::Part;
use catalogue::row::Kind;
use text::level::{level_length, put_level};
use text::number::{number_length, put_number};
use text::sign::magnitude;
use text::switch::put_switch;
use text::word::{bit_of, put_word};

// How long a value's text is.
#[tactic(auto, using(crate::specs::Text::Length::text_lengths))]
pub(crate) fn text_length(kind: Kind, v: i64) -> usize
    ensures { (result ≡ length (text_of kind v)) × (result ≤ 23) }
{
    match kind {
        Kind::Level => level_length(v),
        Kind::Switch => 1,
        Kind::Number => number_length(magnitude(v)),
        Kind::Word => 8,
    }
}

// A value's text.
fn put_text(buffer: &mut [u8], at: usize, kind: Kind, v: i64) -> usize
    requires { at + length (text_of kind v) ≤ length buffer.old }
    ensures { Wrote buffer.old at (text_of kind v) result buffer.new }
{
    match kind {
        Kind::Level => put_level(buffer, at, v),
        Kind::Switch => put_switch(buffer, at, magnitude(v)),
        Kind::Number => put_number(buffer, at, magnitude(v)),
        Kind::Word => put_word(buffer, at, magnitude(v)),
    }
}

// How long the text of a part is.
#[tactic(auto, using(crate::specs::Text::Parts::part_lengths))]
pub(crate) fn part_length(kind: Kind, part: Part, v: i64) -> usize
    ensures { (result ≡ length (part_text kind part v)) × (result ≤ 23) }
{
    match part {
        Part::Whole => text_length(kind, v),
        Part::Output(_) => 1,
    }
}

// The letter of an output of a routing word.
#[tactic(auto, using(crate::specs::Text::Parts::bit_writing))]
fn put_bit(buffer: &mut [u8], at: usize, output: u64, v: i64) -> usize
    requires le_output { 1 ≤ output }
    requires output_bound { output ≤ 32 }
    requires v_in_bounds { at + length (switch_text (bit output (nat_abs v))) ≤ length buffer.old }
    ensures { Wrote buffer.old at (switch_text (bit output (nat_abs v))) result buffer.new }
{
    put_switch(buffer, at, bit_of(output, magnitude(v)))
}

// The text of a part.
pub(crate) fn put_part(buffer: &mut [u8], at: usize, kind: Kind, part: Part, v: i64) -> usize
    requires part_in { PartIn part }
    requires v_in_bounds { at + length (part_text kind part v) ≤ length buffer.old }
    ensures { Wrote buffer.old at (part_text kind part v) result buffer.new }
{
    match part {
        Part::Whole => put_text(buffer, at, kind, v),
        Part::Output(o) => put_bit(buffer, at, o, v),
    }
}
