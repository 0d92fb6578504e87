// The set line that takes a parameter from its present to its wanted value: its length, and writing it at the start of a buffer.
ghost use Rattle.std.specs.Prelude.{[], ◌∷◌, ◌++◌, ◌≡◌, ◌+◌, ◌≤◌, length};
ghost use Rattle.catalogue.specs.declared.groups.Part.TheVariants.{Whole};
ghost use Rattle.text.specs.Written.{Wrote};
ghost use Rattle.spelling.specs.Line.{line_for};
ghost use Rattle.room.specs.Label.{label};
ghost use Rattle.spelling.specs.Say.{output_or, said_part, say};

use crate::name::{Named, name_length};
use crate::value::{part_length, text_length};
use catalogue::groups::Part;
use catalogue::row::Kind;
use text::sign::magnitude;
use text::word::only_differing;
use values::parameter::Parameter;

// An output, or the whole for 0.
#[tactic(auto, using(crate::specs::Say::Writing::output_or_lem))]
fn output_or(output: u64) -> Part
    ensures { result ≡ output_or output }
{
    if output == 0 {
        return Part::Whole;
    }
    Part::Output(output)
}

// What the line names: of a routing word in which one output alone differs, that output; else the whole.
#[tactic(auto, using(crate::specs::Say::Writing::saying))]
fn said_part(kind: Kind, present: i64, wanted: i64) -> Part
    ensures { result ≡ said_part kind present wanted }
{
    match kind {
        Kind::Word => output_or(only_differing(magnitude(present), magnitude(wanted))),
        Kind::Level | Kind::Switch | Kind::Number => Part::Whole,
    }
}

// How long the set line that says a whole value is with its 0D, where the label is `size` bytes long.
#[tactic(auto, using(crate::specs::Say::Writing::whole_lengths))]
pub fn whole_line_length(table: &[u8], p: Parameter, size: usize, wanted: i64) -> usize
    requires { size ≡ length (label table.now p.owner) }
    ensures { (result ≡ length (line_for 0x53 table.now p Whole wanted ++ (0x0D ∷ []))) × (result ≤ 128) }
{
    4 + name_length(table, p, Part::Whole, size) + text_length(p.row.kind, wanted)
}

// How long the set line is with its 0D, where the label is `size` bytes long.
#[tactic(auto, using(crate::specs::Say::Writing::say_lengths))]
pub fn say_line_length(table: &[u8], p: Parameter, size: usize, present: i64, wanted: i64) -> usize
    requires { size ≡ length (label table.now p.owner) }
    ensures { result ≡ length (say table.now p present wanted ++ (0x0D ∷ [])) }
{
    let kind = p.row.kind;
    let part = said_part(kind, present, wanted);
    4 + name_length(table, p, part, size) + part_length(kind, part, wanted)
}

// The set line that says a whole value, and its 0D, where the label is `size` bytes long.
#[tactic(auto, using(crate::specs::Say::Writing::whole_writing))]
pub fn put_whole_line(
    table: &[u8],
    p: Parameter,
    size: usize,
    wanted: i64,
    buffer: &mut [u8],
) -> usize
    requires place_in_bounds { (p.owner.place + 33 ≤ length table.now) × (size ≡ length (label table.now p.owner)) }
    requires wanted_in_bounds { length (line_for 0x53 table.now p Whole wanted ++ (0x0D ∷ [])) ≤ length buffer.old }
    ensures { Wrote buffer.old 0 (line_for 0x53 table.now p Whole wanted ++ (0x0D ∷ [])) result buffer.new }
{
    let named = Named {
        table,
        parameter: p,
        size,
    };
    named.put_line(Part::Whole, b'S', wanted, buffer)
}

// The set line and its 0D, where the label is `size` bytes long.
pub fn put_say_line(
    table: &[u8],
    p: Parameter,
    size: usize,
    present: i64,
    wanted: i64,
    buffer: &mut [u8],
) -> usize
    requires place_in_bounds { (p.owner.place + 33 ≤ length table.now) × (size ≡ length (label table.now p.owner)) }
    requires wanted_in_bounds { length (say table.now p present wanted ++ (0x0D ∷ [])) ≤ length buffer.old }
    ensures { Wrote buffer.old 0 (say table.now p present wanted ++ (0x0D ∷ [])) result buffer.new }
{
    let part = said_part(p.row.kind, present, wanted);
    let named = Named {
        table,
        parameter: p,
        size,
    };
    named.put_line(part, b'S', wanted, buffer)
}
