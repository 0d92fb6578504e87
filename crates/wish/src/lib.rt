// The chosen modules and their wanted values, and the restore list as a definition.
#![tactic(auto)]

ghost use Rattle.std.specs.Prelude.{not, true, ◌||◌, ◌≡◌, eqb, length};
ghost use Rattle.catalogue.specs.Catalogue.{known_layout, rows_of};
ghost use Rattle.room.specs.Table.{sound};
ghost use Rattle.values.specs.Permit.{rows_permit};
ghost use Rattle.values.specs.Room.{room_of};
ghost use Rattle.wish.specs.Target.{selection_right, wanted_right};

use catalogue::layout::Layout;
use catalogue::{is_fixed, row_count};
use room::modules::modules_of;
use values::mixer_values::mixer_fits;
use values::module_values::listed_fits;

// Whether there is one selection byte for each module, and each is 0 or 1.
pub fn selection_right(table: &[u8], selection: &[u8]) -> bool
    requires { sound table.now ≡ true }
    ensures { result ≡ selection_right table.now selection.now }
{
    let mut count = 0;
    for m in modules_of(table) {
        if selection.len() <= m.number {
            return false;
        }
        if 1 < selection[m.number] {
            return false;
        }
        count = m.number + 1;
    }
    count == selection.len()
}

// Whether a module's wanted values are permitted, where it is chosen.
fn module_right(selected: u8, layout: Layout, wanted: &[i64]) -> bool
    requires { (known_layout layout ≡ true) × (length wanted.now ≡ length (rows_of layout)) }
    ensures { result ≡ (not (eqb selected 1) || rows_permit (rows_of layout) wanted.now) }
{
    if selected != 1 {
        return true;
    }
    if is_fixed(layout.kind) {
        return listed_fits(layout, wanted);
    }
    mixer_fits(layout.inputs as u64, layout.outputs as u64, wanted)
}

// Whether the wanted list has one entry for each parameter, and each chosen module's entry is permitted.
pub fn wanted_right(table: &[u8], selection: &[u8], wanted: &[i64]) -> bool
    requires { (sound table.now ≡ true) × (selection_right table.now selection.now ≡ true) }
    ensures { result ≡ wanted_right (room_of table.now) selection.now wanted.now }
{
    let mut end = 0;
    for m in modules_of(table) {
        let count = row_count(m.layout);
        if wanted.len() - m.first < count {
            return false;
        }
        end = m.first + count;
        if !module_right(selection[m.number], m.layout, &wanted[m.first..end]) {
            return false;
        }
    }
    end == wanted.len()
}
