// The catalogue as one constant table.
ghost use Rattle.std.specs.Prelude.{◌≡◌};
ghost use Rattle.catalogue.specs.Catalogue.{catalogue};

use crate::row::Indices::{OneGroup, TwoGroups};
use crate::row::Kind::{Level, Number, Switch};
use crate::row::Row;

// A row, and the module type that has it.
#[derive(Clone, Copy)]
pub struct Entry {
    pub owner: u8,
    pub row: Row,
}

// Type, indices, kind, low, high, step, and whether a line may set it.
macro_rules! entry {
    ($owner:literal, $indices:expr, $kind:expr, $low:expr, $high:expr, $step:literal, $settable:literal) => {
        Entry {
            owner: $owner,
            row: Row {
                indices: $indices,
                kind: $kind,
                low: $low,
                high: $high,
                step: $step,
                settable: $settable,
            },
        }
    };
}

static ROWS: [Entry; 50] = [
    entry!(1, OneGroup(1), Level, -150, 150, 1, true),
    entry!(1, OneGroup(2), Switch, 0, 1, 1, true),
    entry!(1, OneGroup(3), Level, -150, 150, 1, true),
    entry!(1, OneGroup(4), Switch, 0, 1, 1, true),
    entry!(1, OneGroup(5), Level, -150, 150, 1, true),
    entry!(1, OneGroup(6), Switch, 0, 1, 1, true),
    entry!(2, OneGroup(1), Switch, 0, 1, 1, true),
    entry!(3, OneGroup(1), Switch, 0, 1, 1, true),
    entry!(4, TwoGroups(1, 1), Number, 0, 9, 1, true),
    entry!(4, TwoGroups(1, 2), Level, -605, 120, 5, true),
    entry!(4, TwoGroups(1, 3), Switch, 0, 1, 1, true),
    entry!(4, TwoGroups(1, 4), Level, -605, 120, 5, true),
    entry!(4, TwoGroups(1, 5), Switch, 0, 1, 1, true),
    entry!(4, TwoGroups(1, 6), Level, -605, 120, 5, true),
    entry!(4, TwoGroups(1, 7), Switch, 0, 1, 1, true),
    entry!(5, TwoGroups(0, 1), Number, 0, 8, 1, false),
    entry!(5, TwoGroups(0, 2), Number, 0, 32, 1, false),
    entry!(5, TwoGroups(0, 3), Number, 0, 16, 1, false),
    entry!(5, TwoGroups(0, 4), Switch, 0, 1, 1, false),
    entry!(5, TwoGroups(0, 5), Number, 0, 6, 1, false),
    entry!(5, TwoGroups(0, 8), Level, -60, -30, 10, false),
    entry!(5, TwoGroups(1, 1), Level, -605, 120, 5, true),
    entry!(5, TwoGroups(1, 2), Switch, 0, 1, 1, true),
    entry!(5, TwoGroups(1, 3), Level, -605, 120, 5, true),
    entry!(5, TwoGroups(1, 4), Switch, 0, 1, 1, true),
    entry!(5, TwoGroups(1, 5), Level, -605, 120, 5, true),
    entry!(5, TwoGroups(1, 6), Switch, 0, 1, 1, true),
    entry!(5, TwoGroups(1, 7), Level, -605, 120, 5, true),
    entry!(5, TwoGroups(1, 8), Switch, 0, 1, 1, true),
    entry!(5, TwoGroups(1, 9), Number, 1, 6, 1, true),
    entry!(5, TwoGroups(2, 1), Level, -605, 120, 5, true),
    entry!(5, TwoGroups(2, 2), Switch, 0, 1, 1, true),
    entry!(5, TwoGroups(2, 3), Level, -605, 120, 5, true),
    entry!(5, TwoGroups(2, 4), Switch, 0, 1, 1, true),
    entry!(5, TwoGroups(2, 5), Level, -605, 120, 5, true),
    entry!(5, TwoGroups(2, 6), Switch, 0, 1, 1, true),
    entry!(5, TwoGroups(2, 7), Level, -605, 120, 5, true),
    entry!(5, TwoGroups(2, 8), Switch, 0, 1, 1, true),
    entry!(5, TwoGroups(2, 9), Level, -605, 120, 5, true),
    entry!(5, TwoGroups(2, 10), Switch, 0, 1, 1, true),
    entry!(5, TwoGroups(2, 11), Level, -605, 120, 5, true),
    entry!(5, TwoGroups(2, 12), Switch, 0, 1, 1, true),
    entry!(5, TwoGroups(2, 13), Level, -605, 120, 5, true),
    entry!(5, TwoGroups(2, 14), Switch, 0, 1, 1, true),
    entry!(5, TwoGroups(2, 15), Level, -605, 120, 5, true),
    entry!(5, TwoGroups(2, 16), Switch, 0, 1, 1, true),
    entry!(5, TwoGroups(2, 17), Level, -605, 120, 5, true),
    entry!(5, TwoGroups(2, 18), Switch, 0, 1, 1, true),
    entry!(6, TwoGroups(0, 2), Switch, 0, 1, 1, true),
    entry!(6, TwoGroups(1, 1), Number, 1, 43200, 1, true),
];

// The whole table, which stands once in the program.
pub fn all_rows() -> &'static [Entry; 50]
    ensures { result.now ≡ catalogue }
{
    &ROWS
}
