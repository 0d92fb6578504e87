// Measuring the changes of the rows of a module that is no mixer.
ghost use Rattle.std.specs.Prelude.{true, ◌≡◌, length};
ghost use Rattle.catalogue.specs.Catalogue.{fixed, known_layout, rows_of};
ghost use Rattle.room.specs.Label.{label};
ghost use Rattle.restore_list.specs.Measuring.{Settles, row_changes};

use crate::module_measuring::Measured;
use catalogue::listed::listed_row;
use room::table::Module;
use spelling::set_line::whole_line_length;
use values::parameter::Parameter;

// The changes of the rows of a module that is no mixer: each line says a whole value.
pub(crate) fn listed_lines(
    table: &[u8],
    m: Module,
    size: usize,
    present: &[i64],
    wanted: &[i64],
) -> Measured
    requires rows_value { (known_layout m.layout ≡ true) × (fixed m.layout.kind ≡ true) × (size ≡ length (label table.now m)) }
    requires present_len { (length present.now ≡ length (rows_of m.layout)) × (length wanted.now ≡ length (rows_of m.layout)) }
    ensures { Settles table.now (row_changes m present.now wanted.now) result }
{
    let layout = m.layout;
    let mut bytes = 0;
    let mut lines = 0;
    for number in 0..present.len() {
        let from = present[number];
        let to = wanted[number];
        if from == to {
            continue;
        }
        let row = listed_row(layout, number);
        if !row.settable {
            return Measured::Beyond;
        }
        let p = Parameter {
            owner: m,
            number,
            row,
        };
        bytes += whole_line_length(table, p, size, to);
        lines += 1;
    }
    Measured::Within(bytes, lines)
}
