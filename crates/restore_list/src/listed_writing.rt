// Writing the lines of the rows of a module that is no mixer, each into what is left of the buffer.
ghost use Rattle.std.specs.Prelude.{true, [], ◌∷◌, ◌++◌, ◌≡◌, ◌+◌, ◌≤◌, length};
ghost use Rattle.catalogue.specs.Catalogue.{fixed, known_layout, rows_of};
ghost use Rattle.catalogue.specs.declared.groups.Part.TheVariants.{Whole};
ghost use Rattle.room.specs.Label.{label};
ghost use Rattle.spelling.specs.Line.{line_for};
ghost use Rattle.text.specs.Written.{Wrote};
ghost use Rattle.wish.specs.Listing.{listing};
ghost use Rattle.restore_list.specs.Measuring.{row_changes};

use catalogue::listed::listed_row;
use room::table::Module;
use spelling::set_line::put_whole_line;
use values::parameter::Parameter;

// One set line that says a whole value, with its 0D, put down at a place: what is left of the buffer is lent on.
fn write_whole(
    table: &[u8],
    p: Parameter,
    size: usize,
    to: i64,
    list: &mut [u8],
    at: usize,
) -> usize
    requires place_in_bounds { (p.owner.place + 33 ≤ length table.now) × (size ≡ length (label table.now p.owner)) }
    requires to_in_bounds { at + length (line_for 0x53 table.now p Whole to ++ (0x0D ∷ [])) ≤ length list.old }
    ensures { Wrote list.old at (line_for 0x53 table.now p Whole to ++ (0x0D ∷ [])) result list.new }
{
    at + put_whole_line(table, p, size, to, &mut list[at..])
}

// The lines of the rows of a module that is no mixer: each says a whole value.
pub(crate) fn write_listed(
    table: &[u8],
    m: Module,
    size: usize,
    present: &[i64],
    wanted: &[i64],
    list: &mut [u8],
    start: usize,
) -> usize
    requires rows_value { (known_layout m.layout ≡ true) × (fixed m.layout.kind ≡ true) × (m.place + 33 ≤ length table.now) × (size ≡ length (label table.now m)) }
    requires present_len { (length present.now ≡ length (rows_of m.layout)) × (length wanted.now ≡ length (rows_of m.layout)) }
    requires wanted_in_bounds { start + length (listing table.now (row_changes m present.now wanted.now)) ≤ length list.old }
    ensures { Wrote list.old start (listing table.now (row_changes m present.now wanted.now)) result list.new }
{
    let layout = m.layout;
    let mut at = start;
    for number in 0..present.len() {
        let from = present[number];
        let to = wanted[number];
        if from == to {
            continue;
        }
        let p = Parameter {
            owner: m,
            number,
            row: listed_row(layout, number),
        };
        at = write_whole(table, p, size, to, list, at);
    }
    at
}
