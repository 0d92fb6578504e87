// Writing the lines of a module's rows, each into what is left of the buffer.
ghost use Rattle.std.specs.Prelude.{true, ◌≡◌, ◌+◌, ◌≤◌, length, [], ◌∷◌, ◌++◌};
ghost use Rattle.catalogue.specs.Catalogue.{known_layout, rows_of};
ghost use Rattle.room.specs.Label.{label};
ghost use Rattle.wish.specs.Listing.{listing};
ghost use Rattle.restore_list.specs.Measuring.{row_changes};
ghost use Rattle.text.specs.Written.{Wrote};
ghost use Rattle.spelling.specs.Say.{say};

use catalogue::listed::row_of;
use room::table::Module;
use spelling::set_line::put_say_line;
use values::parameter::Parameter;

// One set line with its 0D, put down at a place: what is left of the buffer is lent on.
fn write_line(
    table: &[u8],
    p: Parameter,
    size: usize,
    from: i64,
    to: i64,
    list: &mut [u8],
    at: usize,
) -> usize
    requires place_in_bounds { (p.owner.place + 33 ≤ length table.now) × (size ≡ length (label table.now p.owner)) }
    requires to_in_bounds { at + length (say table.now p from to ++ (0x0D ∷ [])) ≤ length list.old }
    ensures { Wrote list.old at (say table.now p from to ++ (0x0D ∷ [])) result list.new }
{
    at + put_say_line(table, p, size, from, to, &mut list[at..])
}

// The lines of a module's rows.
pub(crate) fn write_rows(
    table: &[u8],
    m: Module,
    size: usize,
    present: &[i64],
    wanted: &[i64],
    list: &mut [u8],
    start: usize,
) -> usize
    requires rows_value { (known_layout m.layout ≡ true) × (m.place + 33 ≤ length table.now) × (size ≡ length (label table.now m)) }
    requires present_len { (length present.now ≡ length (rows_of m.layout)) × (length wanted.now ≡ length (rows_of m.layout)) }
    requires wanted_in_bounds { start + length (listing table.now (row_changes m present.now wanted.now)) ≤ length list.old }
    ensures { Wrote list.old start (listing table.now (row_changes m present.now wanted.now)) result list.new }
{
    let layout = m.layout;
    let mut at = start;
    for number in 0..present.len() {
        let from = present[number];
        let to = wanted[number];
        if from == to {
            continue;
        }
        let p = Parameter {
            owner: m,
            number,
            row: row_of(layout, number),
        };
        at = write_line(table, p, size, from, to, list, at);
    }
    at
}
