// How long the restore list is, and whether every wanted change is within reach.
ghost use Rattle.std.specs.Prelude.{◌≡◌, length};
ghost use Rattle.room.specs.Label.{label};
ghost use Rattle.restore_list.specs.Measuring.{Matching, Measures, MeasuresModule, Settles, Standing, all_changes, module_changes, row_changes, values_of};

use crate::listed_measuring::listed_lines;
use crate::module_measuring::{Measured, borne_once, row_lines};
use catalogue::{is_fixed, row_count};
use room::label::label_length;
use room::modules::modules_of;
use room::table::Module;

// The changes of a module's rows, of the parts of the lists that are its own.
fn module_lines(
    table: &[u8],
    m: Module,
    size: usize,
    present: &[i64],
    selection: &[u8],
    wanted: &[i64],
) -> Measured
    requires rows_value { Standing table.now present.now selection.now wanted.now m }
    requires size_value { size ≡ length (label table.now m) }
    ensures { Settles table.now (row_changes m (values_of m present.now) (values_of m wanted.now)) result }
{
    let first = m.first;
    let layout = m.layout;
    let end = first + row_count(layout);
    if is_fixed(layout.kind) {
        return listed_lines(table, m, size, &present[first..end], &wanted[first..end]);
    }
    row_lines(table, m, size, &present[first..end], &wanted[first..end])
}

// The changes of a module: beyond reach too where a row changes and the module does not alone bear its label.
fn measure_module(
    table: &[u8],
    m: Module,
    present: &[i64],
    selection: &[u8],
    wanted: &[i64],
) -> Measured
    requires { Standing table.now present.now selection.now wanted.now m }
    ensures { MeasuresModule table.now (module_changes selection.now m present.now wanted.now) result }
{
    let number = m.number;
    if selection[number] != 1 {
        return Measured::Within(0, 0);
    }
    let size = label_length(table, m.place);
    match module_lines(table, m, size, present, selection, wanted) {
        Measured::Beyond => Measured::Beyond,
        Measured::Within(bytes, lines) => {
            if lines == 0 {
                return Measured::Within(bytes, lines);
            }
            if !borne_once(table, m, size) {
                return Measured::Beyond;
            }
            Measured::Within(bytes, lines)
        }
    }
}

// The whole list, measured before a byte of it is written.
pub fn measure(table: &[u8], present: &[i64], selection: &[u8], wanted: &[i64]) -> Measured
    requires { Matching table.now present.now selection.now wanted.now }
    ensures { Measures table.now (all_changes table.now present.now selection.now wanted.now) result }
{
    let mut bytes = 0;
    let mut lines = 0;
    for m in modules_of(table) {
        match measure_module(table, m, present, selection, wanted) {
            Measured::Beyond => return Measured::Beyond,
            Measured::Within(b, l) => {
                bytes += b;
                lines += l;
            }
        }
    }
    Measured::Within(bytes, lines)
}
