// The values of one module: whether each is permitted for its row.
ghost use Rattle.std.specs.Prelude.{true, ◌≡◌, length};
ghost use Rattle.catalogue.specs.Catalogue.{fixed, known_layout, rows_of};
ghost use Rattle.values.specs.Permit.{rows_permit};

use crate::mixer_values::mixer_fits;
use catalogue::layout::Layout;
use catalogue::listed::row_permits;
use catalogue::{first_row, is_fixed};

// Whether each value of a module that is no mixer is permitted for its row.
pub fn listed_fits(layout: Layout, values: &[i64]) -> bool
    requires rows_value { (known_layout layout ≡ true) × (length values.now ≡ length (rows_of layout)) }
    requires kind_value { fixed layout.kind ≡ true }
    ensures { result ≡ rows_permit (rows_of layout) values.now }
{
    let first = first_row(layout.kind);
    for (j, v) in values.iter().enumerate() {
        if !row_permits(first + j, *v) {
            return false;
        }
    }
    true
}

// Whether each value of a module is permitted for its row.
pub(crate) fn module_fits(layout: Layout, values: &[i64]) -> bool
    requires { (known_layout layout ≡ true) × (length values.now ≡ length (rows_of layout)) }
    ensures { result ≡ rows_permit (rows_of layout) values.now }
{
    if is_fixed(layout.kind) {
        return listed_fits(layout, values);
    }
    mixer_fits(layout.inputs as u64, layout.outputs as u64, values)
}
