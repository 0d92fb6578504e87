// The index groups of a row's part as a line writes them, each after `>`: their length, and writing them.
ghost use Rattle.std.specs.Prelude.{◌≡◌, ◌+◌, ◌≤◌, length};
ghost use Rattle.catalogue.specs.Groups.{groups_of};
ghost use Rattle.text.specs.Written.{Wrote};
ghost use Rattle.spelling.specs.IndexText.{index_text};
ghost use Rattle.spelling.specs.IndexText.Writing.{arrow_text, cross_text, ended_text, pair_text};

use catalogue::groups::Part;
use catalogue::row::Indices;
use text::number::{number_length, put_number};
use text::written::{put_byte, put_bytes};

// How long a number after `>` is.
#[tactic(auto, using(crate::specs::IndexText::Length::group_lengths))]
fn group_length(n: u64) -> usize
    ensures { (result ≡ length (arrow_text n)) × (result ≤ 21) }
{
    1 + number_length(n)
}

// How long 4 and a pair of numbers are.
#[tactic(auto, using(crate::specs::IndexText::Length::cross_lengths))]
fn cross_length(input: u64, output: u64) -> usize
    ensures { (result ≡ length (cross_text input output)) × (result ≤ 46) }
{
    6 + number_length(input) + number_length(output)
}

// How long the index groups of a part are.
#[tactic(auto, using(crate::specs::IndexText::Length::index_lengths))]
pub(crate) fn index_length(indices: Indices, part: Part) -> usize
    ensures { (result ≡ length (index_text (groups_of indices part))) × (result ≤ 46) }
{
    match (part, indices) {
        (Part::Whole, Indices::OneGroup(a)) => group_length(a),
        (Part::Whole, Indices::TwoGroups(a, b)) => group_length(a) + group_length(b),
        (Part::Output(o), Indices::OneGroup(a)) => cross_length(a, o),
        (Part::Output(o), Indices::TwoGroups(_, b)) => cross_length(b, o),
    }
}

// A number after `>`.
fn put_group(buffer: &mut [u8], at: usize, n: u64) -> usize
    requires { at + length (arrow_text n) ≤ length buffer.old }
    ensures { Wrote buffer.old at (arrow_text n) result buffer.new }
{
    let next = put_byte(buffer, at, b'>');
    put_number(buffer, next, n)
}

// A number and a byte after it.
fn put_ended(buffer: &mut [u8], at: usize, n: u64, end: u8) -> usize
    requires { at + length (ended_text n end) ≤ length buffer.old }
    ensures { Wrote buffer.old at (ended_text n end) result buffer.new }
{
    let next = put_number(buffer, at, n);
    put_byte(buffer, next, end)
}

// A pair of numbers.
fn put_pair(buffer: &mut [u8], at: usize, a: u64, b: u64) -> usize
    requires { at + length (pair_text a b) ≤ length buffer.old }
    ensures { Wrote buffer.old at (pair_text a b) result buffer.new }
{
    let opened = put_byte(buffer, at, b'(');
    let divided = put_ended(buffer, opened, a, b',');
    put_ended(buffer, divided, b, b')')
}

// 4 and the pair of an input and an output.
fn put_cross(buffer: &mut [u8], at: usize, input: u64, output: u64) -> usize
    requires { at + length (cross_text input output) ≤ length buffer.old }
    ensures { Wrote buffer.old at (cross_text input output) result buffer.new }
{
    let text = [b'>', b'4', b'>'];
    let next = put_bytes(buffer, at, &text);
    put_pair(buffer, next, input, output)
}

// The index groups of a part.
pub(crate) fn put_indices(buffer: &mut [u8], at: usize, indices: Indices, part: Part) -> usize
    requires { at + length (index_text (groups_of indices part)) ≤ length buffer.old }
    ensures { Wrote buffer.old at (index_text (groups_of indices part)) result buffer.new }
{
    match (part, indices) {
        (Part::Whole, Indices::OneGroup(a)) => put_group(buffer, at, a),
        (Part::Whole, Indices::TwoGroups(a, b)) => {
            let next = put_group(buffer, at, a);
            put_group(buffer, next, b)
        }
        (Part::Output(o), Indices::OneGroup(a)) => put_cross(buffer, at, a, o),
        (Part::Output(o), Indices::TwoGroups(_, b)) => put_cross(buffer, at, b, o),
    }
}
