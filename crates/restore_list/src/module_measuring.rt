// Measuring the changes of a module's rows, and whether the module alone bears its label.
ghost use Rattle.std.specs.Prelude.{true, ◌≡◌, ◌+◌, ◌≤◌, length};
ghost use Rattle.catalogue.specs.Catalogue.{known_layout, rows_of};
ghost use Rattle.room.specs.Label.{bearer, label};
ghost use Rattle.room.specs.Table.{sound};
ghost use Rattle.wish.specs.Listing.{borne_once};
ghost use Rattle.restore_list.specs.Measuring.{Settles, row_changes};

use catalogue::listed::row_of;
use room::label::find_bearer;
use room::table::Module;
use spelling::set_line::say_line_length;
use values::parameter::Parameter;

// The bytes and the lines of a list.
#[derive(Clone, Copy)]
pub struct Size {
    pub bytes: usize,
    pub lines: usize,
}

// The bytes and the lines of the list, or that a wanted change is beyond reach.
#[derive(Clone, Copy)]
pub enum Measured {
    Within(usize, usize),
    Beyond,
}

// The changes of a module's rows: beyond reach where a row that changes is read-only.
pub(crate) fn row_lines(
    table: &[u8],
    m: Module,
    size: usize,
    present: &[i64],
    wanted: &[i64],
) -> Measured
    requires rows_value { (known_layout m.layout ≡ true) × (size ≡ length (label table.now m)) }
    requires present_len { (length present.now ≡ length (rows_of m.layout)) × (length wanted.now ≡ length (rows_of m.layout)) }
    ensures { Settles table.now (row_changes m present.now wanted.now) result }
{
    let layout = m.layout;
    let mut bytes = 0;
    let mut lines = 0;
    for number in 0..present.len() {
        let from = present[number];
        let to = wanted[number];
        if from == to {
            continue;
        }
        let row = row_of(layout, number);
        if !row.settable {
            return Measured::Beyond;
        }
        let p = Parameter {
            owner: m,
            number,
            row,
        };
        bytes += say_line_length(table, p, size, from, to);
        lines += 1;
    }
    Measured::Within(bytes, lines)
}

// Whether a module alone bears its label.
pub(crate) fn borne_once(table: &[u8], m: Module, size: usize) -> bool
    requires { (sound table.now ≡ true) × (m.place + 33 ≤ length table.now) × (size ≡ length (label table.now m)) }
    ensures { result ≡ borne_once (bearer table.now (label table.now m)) }
{
    let start = m.place + 1;
    let end = start + size;
    match find_bearer(table, &table[start..end]) {
        Some(_) => true,
        None => false,
    }
}
