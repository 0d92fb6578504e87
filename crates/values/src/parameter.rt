// Parameters: the rows of the modules.
ghost use Rattle.std.specs.Prelude.{false, true, ◌≡◌, length};
ghost use Rattle.catalogue.specs.Catalogue.{fixed, known_layout};
ghost use Rattle.values.specs.Parameters.{parameter_at, parameters, parameters_of, with_indices};
ghost use Rattle.room.specs.Table.{sound};

use catalogue::listed::row_of;
use catalogue::mixer::{mixer_number, mixer_row};
use catalogue::row::{Indices, Row};
use catalogue::row_count;
use room::modules::modules_of;
use room::table::Module;

// A parameter: its module, the number of its row in the module, and the row.
#[derive(Clone, Copy)]
pub struct Parameter {
    pub owner: Module,
    pub number: usize,
    pub row: Row,
}

// The parameter of a mixer whose row has the indices: its number is computed.
pub(crate) fn mixer_parameter(m: Module, indices: Indices) -> Option<Parameter>
    requires { (known_layout m.layout ≡ true) × (fixed m.layout.kind ≡ false) }
    ensures { result ≡ with_indices indices (parameters_of m) }
{
    let layout = m.layout;
    let inputs = layout.inputs as u64;
    let outputs = layout.outputs as u64;
    let number = mixer_number(inputs, outputs, indices);
    if number < 3 * inputs + 2 * outputs {
        let row = mixer_row(inputs, outputs, number);
        return Some(Parameter {
            owner: m,
            number: number as usize,
            row,
        });
    }
    None
}

// How many parameters a table has.
pub fn parameter_count(table: &[u8]) -> usize
    requires { sound table.now ≡ true }
    ensures { result ≡ length (parameters table.now) }
{
    let mut passed = 0;
    for m in modules_of(table) {
        passed += row_count(m.layout);
    }
    passed
}

// Parameter k of a table, counted from 0.
pub(crate) fn parameter_at(table: &[u8], k: usize) -> Option<Parameter>
    requires { sound table.now ≡ true }
    ensures { result ≡ parameter_at (parameters table.now) k }
{
    for m in modules_of(table) {
        let within = k - m.first;
        if within < row_count(m.layout) {
            let row = row_of(m.layout, within);
            return Some(Parameter {
                owner: m,
                number: within,
                row,
            });
        }
    }
    None
}
