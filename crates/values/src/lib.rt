// The value list of a room: which parameter each value is of, and which lists are right.
#![tactic(auto)]

pub mod by_row;
pub mod control;
pub mod mixer_values;
pub mod module_values;
pub mod parameter;
pub mod starts;

ghost use Rattle.std.specs.Prelude.{true, ◌≡◌};
ghost use Rattle.room.specs.Refusal.{number_of};
ghost use Rattle.room.specs.Table.{sound};
ghost use Rattle.values.specs.Room.{room_of};
ghost use Rattle.values.specs.Values.{values_number, values_sound};

use crate::module_values::module_fits;
use catalogue::{ROWS, row_count};
use room::modules::modules_of;
use room::refusal::Refusal;
use room::table::MODULES;

// How many values a table may have.
pub const VALUES: usize = MODULES * ROWS;

// Whether a list has one entry for each parameter, and each is permitted.
fn are_sound(table: &[u8], values: &[i64]) -> bool
    requires { sound table.now ≡ true }
    ensures { result ≡ values_sound (room_of table.now) values.now }
{
    let mut end = 0;
    for m in modules_of(table) {
        let count = row_count(m.layout);
        if values.len() - m.first < count {
            return false;
        }
        end = m.first + count;
        if !module_fits(m.layout, &values[m.first..end]) {
            return false;
        }
    }
    end == values.len()
}

// Refuses a list that does not have one permitted value for each parameter.
#[tactic(auto, unfolding(crate::specs::Values::values_number))]
pub fn check_values(table: &[u8], values: &[i64]) -> Result<(), Refusal>
    requires { sound table.now ≡ true }
    ensures { number_of result ≡ values_number (room_of table.now) values.now }
{
    if are_sound(table, values) {
        return Ok(());
    }
    Err(Refusal::Values)
}
