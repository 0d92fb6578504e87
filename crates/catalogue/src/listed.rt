// A row by its number, in the table or in a module.
ghost use Rattle.std.specs.Prelude.{true, ◌≡◌, ◌<◌, length};
ghost use Rattle.catalogue.specs.Catalogue.{catalogue, entry_at, fixed, known_layout, row_of, rows_of};
ghost use Rattle.catalogue.specs.Row.{permitted};

use crate::layout::Layout;
use crate::mixer::mixer_row;
use crate::row::Row;
use crate::table::all_rows;
use crate::{first_row, is_fixed};

// Row n of the table.
fn row_at(n: usize) -> Row
    requires { n < length catalogue }
    ensures { result ≡ (entry_at n).row }
{
    all_rows()[n].row
}

// Row `number` of a module that is no mixer.
pub fn listed_row(layout: Layout, number: usize) -> Row
    requires rows_value { (known_layout layout ≡ true) × (number < length (rows_of layout)) }
    requires kind_value { fixed layout.kind ≡ true }
    ensures { result ≡ row_of layout number }
{
    row_at(first_row(layout.kind) + number)
}

// Row `number` of a module.
pub fn row_of(layout: Layout, number: usize) -> Row
    requires { (known_layout layout ≡ true) × (number < length (rows_of layout)) }
    ensures { result ≡ row_of layout number }
{
    if is_fixed(layout.kind) {
        return listed_row(layout, number);
    }
    mixer_row(layout.inputs as u64, layout.outputs as u64, number as u64)
}

// Whether row n of the table permits the value v. The numbers of a listed row are narrow.
pub fn row_permits(n: usize, v: i64) -> bool
    requires { n < length catalogue }
    ensures { result ≡ permitted (entry_at n).row v }
{
    let row = row_at(n);
    if v < row.low {
        return false;
    }
    if row.high < v {
        return false;
    }
    if row.step == 1 {
        return true;
    }
    (v - row.low) as u32 % row.step as u32 == 0
}
