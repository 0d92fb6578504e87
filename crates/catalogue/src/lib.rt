// The catalogue: the rows of the module types, which values each permits, and the one constant table.
#![tactic(auto)]

pub mod groups;
pub mod layout;
pub mod listed;
pub mod mixer;
pub mod row;
pub mod table;

ghost use Rattle.std.specs.Prelude.{true, ◌≡◌, length};
ghost use Rattle.catalogue.specs.Catalogue.{catalogue, first_row, fixed, known_layout, rows_in, rows_of};

use crate::layout::Layout;

// How many rows a module may have.
pub const ROWS: usize = 160;

// Whether a byte is a module type that is no mixer.
pub fn is_fixed(kind: u8) -> bool
    ensures { result ≡ fixed kind }
{
    if kind < 1 {
        return false;
    }
    kind <= 6
}

// How many rows each module type that is no mixer has, at the number of the type. A `match` becomes a jump for each record in a walk that counts a module's rows twice.
static ROW_COUNTS: [usize; 7] = [0, 6, 1, 1, 7, 33, 2];

// How many rows a module type that is no mixer has.
fn fixed_count(kind: u8) -> usize
    requires { fixed kind ≡ true }
    ensures { result ≡ length (rows_in kind catalogue) }
{
    ROW_COUNTS[kind as usize]
}

// How many rows a module has.
pub fn row_count(layout: Layout) -> usize
    requires { known_layout layout ≡ true }
    ensures { result ≡ length (rows_of layout) }
{
    if is_fixed(layout.kind) {
        return fixed_count(layout.kind);
    }
    3 * layout.inputs as usize + 2 * layout.outputs as usize
}

// Where the rows of a module type that is no mixer begin in the table.
pub fn first_row(kind: u8) -> usize
    requires { fixed kind ≡ true }
    ensures { result ≡ first_row kind }
{
    match kind {
        1 => 0,
        2 => 6,
        3 => 7,
        4 => 8,
        5 => 15,
        6 => 48,
        _ => 0,
    }
}
