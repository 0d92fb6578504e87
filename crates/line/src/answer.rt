// The answer to a line: the reply, why it was 99, and the values afterwards.
ghost use Rattle.std.specs.Prelude.{true, ◌≡◌, ◌+◌, ◌<◌, ◌≤◌, pos, get_or, length, set};
ghost use Rattle.text.specs.Written.{Wrote};
ghost use Rattle.values.specs.Parameters.{place};
ghost use Rattle.room.specs.Table.{sound};
ghost use Rattle.values.specs.Room.{room_of};
ghost use Rattle.values.specs.Values.{values_sound};
ghost use Rattle.syntax.specs.Shape as syntax;
ghost use Rattle.line.specs.Meaning.{bearer_of};
ghost use Rattle.line.specs.Answer.{Answers};
ghost use Rattle.line.specs.Answer.Replying.{Tellable};
ghost use Rattle.spelling.specs.Reply.{get_reply};
ghost use Rattle.spelling.specs.Acknowledgement.{ack};

use crate::meaning::{Meaning, bearer_of, meaning_of};
use catalogue::groups::Part;
use room::table::Module;
use spelling::acknowledgement::{put_ack, put_nak};
use spelling::reply::put_get;
use syntax::cause::Malformed;
use syntax::shape::{Shape, shape_of};
use values::parameter::Parameter;

// How many bytes the reply has, and why it is 99.
#[derive(Clone, Copy)]
pub struct Answered {
    pub sent: usize,
    pub fault: Option<Malformed>,
}

// Tells the present value of a part of a parameter.
fn tell(table: &[u8], values: &[i64], p: Parameter, named: Part, reply: &mut [u8]) -> usize
    requires tellable { Tellable table.now values.now p named }
    requires in_bounds { 64 ≤ length reply.old }
    ensures { Wrote reply.old 0 (get_reply table.now p named (get_or values.now (place p) (pos 0))) result reply.new }
{
    let place = p.owner.first + p.number;
    put_get(table, p, named, values[place], reply)
}

// Sets the value of a parameter, and acknowledges.
fn put(values: &mut [i64], p: Parameter, x: i64, reply: &mut [u8]) -> usize
    requires number_in_bounds { p.owner.first + p.number < length values.old }
    requires in_bounds { 64 ≤ length reply.old }
    ensures wrote { Wrote reply.old 0 ack result reply.new }
    ensures values_after { values.new ≡ set values.old (place p) x }
{
    let place = p.owner.first + p.number;
    values[place] = x;
    put_ack(reply)
}

// Answers a shaped line, where the bearer of its label is known: does what it means.
fn answer_shaped(
    table: &[u8],
    values: &mut [i64],
    line: &[u8],
    bearer: Option<Module>,
    shape: Result<Shape, Malformed>,
    reply: &mut [u8],
) -> Answered
    requires table_value { (sound table.now ≡ true) × (values_sound (room_of table.now) values.old ≡ true) }
    requires in_bounds { (64 ≤ length reply.old) × (shape ≡ syntax.shape line.now) × (bearer ≡ bearer_of table.now line.now shape) }
    ensures { Answers (room_of table.now) values.old line.now reply.old result values.new reply.new }
{
    match meaning_of(table, values, line, bearer, shape) {
        Meaning::Malformed(cause, place) => Answered {
            sent: put_nak(reply, 99),
            fault: Some(Malformed { cause, place }),
        },
        Meaning::Code(n) => Answered {
            sent: put_nak(reply, n),
            fault: None,
        },
        Meaning::Get(p, named) => Answered {
            sent: tell(table, values, p, named, reply),
            fault: None,
        },
        Meaning::Put(p, x) => Answered {
            sent: put(values, p, x, reply),
            fault: None,
        },
    }
}

// Answers a line: writes the reply at its buffer's start, tells its length and why it is 99, and sets the value that the line puts.
pub fn answer_line(table: &[u8], values: &mut [i64], line: &[u8], reply: &mut [u8]) -> Answered
    requires table_value { (sound table.now ≡ true) × (values_sound (room_of table.now) values.old ≡ true) }
    requires in_bounds { 64 ≤ length reply.old }
    ensures { Answers (room_of table.now) values.old line.now reply.old result values.new reply.new }
{
    let shape = shape_of(line);
    let bearer = bearer_of(table, line, shape);
    answer_shaped(table, values, line, bearer, shape, reply)
}
