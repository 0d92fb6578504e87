// The answer to a get line, written at the start of the reply buffer.
ghost use Rattle.std.specs.Prelude.{◌+◌, ◌≤◌, length};
ghost use Rattle.catalogue.specs.Groups.{PartIn};
ghost use Rattle.text.specs.Written.{Wrote};
ghost use Rattle.spelling.specs.Reply.{get_reply};

use crate::name::Named;
use catalogue::groups::Part;
use room::label::label_length;
use values::parameter::Parameter;

// The answer to a get line: the value of a parameter, or of a part of it.
pub fn put_get(table: &[u8], p: Parameter, part: Part, v: i64, reply: &mut [u8]) -> usize
    requires place_in_bounds { p.owner.place + 33 ≤ length table.now }
    requires part_in { PartIn part }
    requires v_in_bounds { length (get_reply table.now p part v) ≤ length reply.old }
    ensures { Wrote reply.old 0 (get_reply table.now p part v) result reply.new }
{
    let size = label_length(table, p.owner.place);
    let named = Named {
        table,
        parameter: p,
        size,
    };
    named.put_line(part, b'G', v, reply)
}
