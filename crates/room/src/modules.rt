// The modules of a table, one after the other.
ghost use Rattle.std.specs.Prelude.{true, ◌≡◌, ◌-◌, length};
ghost use Rattle.std.specs.Iterator.{at_most};
ghost use Rattle.room.specs.Table.{sound};
ghost use Rattle.room.specs.Table.Steps.{Passes};
ghost use Rattle.room.specs.Table.Walk.{Walk};

use crate::table::Module;
use catalogue::row_count;
use record::body::body_length;
use record::layout::layout_at;

// The modules of a table from a record on: its number, its place, and the number of its first value.
#[derive(Drop)]
pub struct Modules<'a> {
    table: &'a [u8],
    number: usize,
    place: usize,
    first: usize,
}

// The modules of a table.
pub fn modules_of(table: &[u8]) -> Modules
    requires { sound table.now ≡ true }
    ensures table_value { result.table.now ≡ table.now }
    ensures start { (result.number ≡ 0) × (result.place ≡ 0) × (result.first ≡ 0) }
{
    Modules {
        table,
        number: 0,
        place: 0,
        first: 0,
    }
}

impl<'a> Iterator for Modules<'a> {
    type Item = Module;

    ghost can_next = { λ s. Walk s.table.now s.number s.place s.first };

    ghost next_gives = { λ s r u. Passes s.table.now s.number s.place s.first r u.table.now u.number u.place u.first };

    ghost remaining = { λ s. at_most (length s.table.now - s.place) };

    fn next(&mut self) -> Option<Module> {
        if self.table.len() <= self.place {
            return None;
        }
        let layout = layout_at(self.table, self.place);
        let m = Module {
            number: self.number,
            place: self.place,
            layout,
            first: self.first,
        };
        self.number += 1;
        self.place = self.place + 1 + body_length(layout.kind);
        self.first += row_count(layout);
        Some(m)
    }
}
