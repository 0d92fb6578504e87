// The layout of a record's module.
ghost use Rattle.std.specs.Prelude.{true, ◌≡◌, ◌+◌, ◌≤◌, get_or, length};
ghost use Rattle.catalogue.specs.Catalogue.{known};
ghost use Rattle.record.specs.Body.{body_length};
ghost use Rattle.record.specs.Layout.{layout_at};

use catalogue::is_fixed;
use catalogue::layout::Layout;

// The layout of the record at a place.
pub fn layout_at(table: &[u8], place: usize) -> Layout
    requires place_in_bounds { place + 1 + body_length (get_or table.now place 0) ≤ length table.now }
    requires place_value { known (get_or table.now place 0) ≡ true }
    ensures { result ≡ layout_at table.now place }
{
    let kind = table[place];
    if is_fixed(kind) {
        return Layout {
            kind,
            inputs: 0,
            outputs: 0,
        };
    }
    Layout {
        kind,
        inputs: table[place + 33],
        outputs: table[place + 34],
    }
}
