// A parameter by the numbers of its module and of its row.
ghost use Rattle.std.specs.Prelude.{true, ◌≡◌};
ghost use Rattle.catalogue.specs.Catalogue.{known_layout};
ghost use Rattle.room.specs.Table.{sound};
ghost use Rattle.values.specs.Parameters.{by_row, parameter_at, parameters_of};

use crate::parameter::Parameter;
use catalogue::listed::row_of;
use catalogue::row_count;
use room::table::{Module, module_at};

// Parameter `number` of a module, counted from 0.
fn own_parameter(m: Module, number: usize) -> Option<Parameter>
    requires { known_layout m.layout ≡ true }
    ensures { result ≡ parameter_at (parameters_of m) number }
{
    let layout = m.layout;
    if row_count(layout) <= number {
        return None;
    }
    let row = row_of(layout, number);
    Some(Parameter {
        owner: m,
        number,
        row,
    })
}

// The parameter of a table by the numbers of its module and of its row, both counted from 0.
pub fn by_row(table: &[u8], owner: usize, row: usize) -> Option<Parameter>
    requires { sound table.now ≡ true }
    ensures { result ≡ by_row table.now owner row }
{
    own_parameter(module_at(table, owner)?, row)
}
