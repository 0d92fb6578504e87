// A line that goes out with a value, or with an output of a routing word, written at the start of a buffer.
ghost use Rattle.std.specs.Prelude.{[], ◌∷◌, ◌++◌, ◌≤◌, length};
ghost use Rattle.catalogue.specs.Groups.{PartIn};
ghost use Rattle.text.specs.Written.{Wrote};
ghost use Rattle.spelling.specs.Line.{line_for};

use crate::name::Named;
use crate::value::put_part;
use catalogue::groups::Part;
use text::written::put_byte;

impl Named<'_> {
    // The line with this verb that says a part of the parameter's value, and its 0D.
    pub(crate) fn put_line(&self, part: Part, verb: u8, v: i64, buffer: &mut [u8]) -> usize
        requires part_in { PartIn part }
        requires v_in_bounds { length (line_for verb self.now.table.now self.now.parameter part v ++ (0x0D ∷ [])) ≤ length buffer.old }
        ensures { Wrote buffer.old 0 (line_for verb self.now.table.now self.now.parameter part v ++ (0x0D ∷ [])) result buffer.new }
    {
        let next = self.put_front(part, verb, buffer);
        let end = put_part(buffer, next, self.parameter.row.kind, part, v);
        put_byte(buffer, end, 0x0D)
    }
}
