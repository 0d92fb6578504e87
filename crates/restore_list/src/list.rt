// Writing the restore list: the lines one behind the other, each into what is left of the buffer.
ghost use Rattle.std.specs.Prelude.{◌≡◌, ◌+◌, ◌≤◌, length};
ghost use Rattle.text.specs.Written.{Wrote};
ghost use Rattle.wish.specs.Listing.{listing};
ghost use Rattle.restore_list.specs.Measuring.{Matching, Standing, all_changes, module_changes};

use crate::listed_writing::write_listed;
use crate::module_writing::write_rows;
use catalogue::{is_fixed, row_count};
use room::label::label_length;
use room::modules::modules_of;
use room::table::Module;

// The lines of a module, where it is chosen: most modules are no mixers, and their lines say whole values.
fn write_module(
    table: &[u8],
    m: Module,
    present: &[i64],
    selection: &[u8],
    wanted: &[i64],
    list: &mut [u8],
    at: usize,
) -> usize
    requires rows_value { Standing table.now present.now selection.now wanted.now m }
    requires wanted_in_bounds { at + length (listing table.now (module_changes selection.now m present.now wanted.now)) ≤ length list.old }
    ensures { Wrote list.old at (listing table.now (module_changes selection.now m present.now wanted.now)) result list.new }
{
    let number = m.number;
    if selection[number] != 1 {
        return at;
    }
    let size = label_length(table, m.place);
    let first = m.first;
    let layout = m.layout;
    let end = first + row_count(layout);
    if is_fixed(layout.kind) {
        return write_listed(
            table,
            m,
            size,
            &present[first..end],
            &wanted[first..end],
            list,
            at,
        );
    }
    write_rows(
        table,
        m,
        size,
        &present[first..end],
        &wanted[first..end],
        list,
        at,
    )
}

// The whole list.
pub fn write(
    table: &[u8],
    present: &[i64],
    selection: &[u8],
    wanted: &[i64],
    list: &mut [u8],
) -> usize
    requires rows_value { Matching table.now present.now selection.now wanted.now }
    requires wanted_in_bounds { length (listing table.now (all_changes table.now present.now selection.now wanted.now)) ≤ length list.old }
    ensures { Wrote list.old 0 (listing table.now (all_changes table.now present.now selection.now wanted.now)) result list.new }
{
    let mut at = 0;
    for m in modules_of(table) {
        at = write_module(table, m, present, selection, wanted, list, at);
    }
    at
}
