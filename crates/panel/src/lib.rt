// A change at a wall panel: one value is set without a line, and told where the module's label begins with `#`.
#![tactic(auto)]

ghost use Rattle.std.specs.Prelude.{true, ◌≡◌, ◌+◌, ◌<◌, ◌≤◌, pos, get_or, length, set};
ghost use Rattle.text.specs.Written.{Wrote};
ghost use Rattle.room.specs.Refusal.{number_of};
ghost use Rattle.values.specs.Parameters.{place};
ghost use Rattle.values.specs.Room.{room_of};
ghost use Rattle.panel.specs.Panel.{Changes, change_of, notice};
ghost use Rattle.panel.specs.Panel.Calling.{ChangesFound, FoundIn};
ghost use Rattle.panel.specs.Panel.Changing.{FoundFits, Tellable, own_number};

use catalogue::groups::Part;
use catalogue::row::permits;
use room::refusal::Refusal;
use room::table::check;
use serial_port::refusal::{REPLY, check_reply};
use spelling::reply::put_get;
use values::by_row::by_row;
use values::check_values;
use values::parameter::Parameter;

// Refuses a change where there is no parameter, or it may not be changed to the value.
#[tactic(auto, using(crate::specs::Panel::Changing::numbering))]
fn check_change(found: Option<Parameter>, value: i64) -> Result<(), Refusal>
    requires { FoundFits found }
    ensures { number_of result ≡ own_number found value }
{
    match found {
        Some(p) => {
            let row = p.row;
            let settable = row.settable;
            if !settable {
                return Err(Refusal::NoSuchChange);
            }
            if permits(row, value) {
                return Ok(());
            }
            Err(Refusal::NoSuchChange)
        }
        None => Err(Refusal::NoSuchChange),
    }
}

// Sets the value of a parameter, and hands back the one that it had.
fn store(values: &mut [i64], p: Parameter, value: i64) -> i64
    requires { p.owner.first + p.number < length values.old }
    ensures value { result ≡ get_or values.old (place p) (pos 0) }
    ensures values_after { values.new ≡ set values.old (place p) value }
{
    let place = p.owner.first + p.number;
    let before = values[place];
    values[place] = value;
    before
}

// Tells a change where it is one and the label begins with `#`: writes the notice, and answers its length.
fn notify(table: &[u8], p: Parameter, before: i64, value: i64, reply: &mut [u8]) -> usize
    requires tellable { Tellable table.now p }
    requires in_bounds { 64 ≤ length reply.old }
    ensures { Wrote reply.old 0 (notice table.now p before value) result reply.new }
{
    if before == value {
        return 0;
    }
    let label = p.owner.place + 1;
    if table[label] != b'#' {
        return 0;
    }
    put_get(table, p, Part::Whole, value, reply)
}

// A change of the parameter that was found: refused with 3 or 9, or made and told. Returns how many bytes the notice has.
#[tactic(auto, using(crate::specs::Panel::Calling::changing))]
fn change_found(
    table: &[u8],
    values: &mut [i64],
    found: Option<Parameter>,
    value: i64,
    reply: &mut [u8],
) -> Result<usize, Refusal>
    requires { FoundIn table.now values.old found }
    ensures { ChangesFound (room_of table.now) values.old reply.old found value (change_of result) values.new reply.new }
{
    check_reply(REPLY, reply.len())?;
    check_change(found, value)?;
    let Some(p) = found else {
        return Err(Refusal::NoSuchChange);
    };
    let before = store(values, p, value);
    Ok(notify(table, p, before, value, reply))
}

// Changes one value, by the numbers of its module and of its row, both counted from 0: refused with the first number that applies in its order, or made and told.
// Returns how many bytes the notice has.
#[tactic(auto, using(crate::specs::Panel::Calling::calling))]
pub fn change(
    table: &[u8],
    values: &mut [i64],
    owner: usize,
    row: usize,
    value: i64,
    reply: &mut [u8],
) -> Result<usize, Refusal>
    ensures { Changes (room_of table.now) values.old reply.old owner row value (change_of result) values.new reply.new }
{
    check(table)?;
    check_values(table, values)?;
    let found = by_row(table, owner, row);
    change_found(table, values, found, value, reply)
}
