// How a line names a part of a parameter: the label between quotes and the index groups, each after `>`; its length, and writing it.
ghost use Rattle.std.specs.Prelude.{◌≡◌, ◌+◌, ◌≤◌, length};
ghost use Rattle.text.specs.Written.{Wrote};
ghost use Rattle.room.specs.Label.{label};
ghost use Rattle.spelling.specs.Name.{front, name};
ghost use Rattle.spelling.specs.Name.Writing.{quoted_text};

use crate::indices::{index_length, put_indices};
use catalogue::groups::Part;
use text::written::{put_byte, put_bytes};
use values::parameter::Parameter;

// How long the name of a part is, where the label is `size` bytes long. It asks less than `Named` does: the label may lie outside the table.
pub(crate) fn name_length(table: &[u8], p: Parameter, part: Part, size: usize) -> usize
    requires { size ≡ length (label table.now p.owner) }
    ensures { (result ≡ length (name table.now p part)) × (result ≤ 80) }
{
    2 + size + index_length(p.row.indices, part)
}

// A parameter whose label stands in the table and is `size` bytes long.
#[derive(Clone, Copy)]
pub(crate) struct Named<'a> {
    pub(crate) table: &'a [u8],
    pub(crate) parameter: Parameter,
    pub(crate) size: usize,
    ghost labelled: { (parameter.owner.place + 33 ≤ length table.now) × (size ≡ length (label table.now parameter.owner)) },
}

impl Named<'_> {
    // The label, as it stands in the table.
    fn put_label(&self, buffer: &mut [u8], at: usize) -> usize
        requires { at + length (label self.now.table.now self.now.parameter.owner) ≤ length buffer.old }
        ensures { Wrote buffer.old at (label self.now.table.now self.now.parameter.owner) result buffer.new }
    {
        let start = self.parameter.owner.place + 1;
        let end = start + self.size;
        put_bytes(buffer, at, &self.table[start..end])
    }

    // The label between quotes.
    fn put_quoted(&self, buffer: &mut [u8], at: usize) -> usize
        requires { at + length (quoted_text self.now.table.now self.now.parameter.owner) ≤ length buffer.old }
        ensures { Wrote buffer.old at (quoted_text self.now.table.now self.now.parameter.owner) result buffer.new }
    {
        let opened = put_byte(buffer, at, b'"');
        let closing = self.put_label(buffer, opened);
        put_byte(buffer, closing, b'"')
    }

    // The name of a part.
    fn put_name(&self, part: Part, buffer: &mut [u8], at: usize) -> usize
        requires { at + length (name self.now.table.now self.now.parameter part) ≤ length buffer.old }
        ensures { Wrote buffer.old at (name self.now.table.now self.now.parameter part) result buffer.new }
    {
        let next = self.put_quoted(buffer, at);
        put_indices(buffer, next, self.parameter.row.indices, part)
    }

    // What stands before a value: the verb, by its first byte, the name of the part and `=`.
    pub(crate) fn put_front(&self, part: Part, verb: u8, buffer: &mut [u8]) -> usize
        requires { length (front verb self.now.table.now self.now.parameter part) ≤ length buffer.old }
        ensures { Wrote buffer.old 0 (front verb self.now.table.now self.now.parameter part) result buffer.new }
    {
        let text = [verb, b'A'];
        let begun = put_bytes(buffer, 0, &text);
        let named = self.put_name(part, buffer, begun);
        put_byte(buffer, named, b'=')
    }
}
