// The values that a program starts with.
ghost use Rattle.std.specs.Prelude.{true, ◌≡◌, ◌≤◌, pos, get_or, length};
ghost use Rattle.room.specs.Table.{sound};
ghost use Rattle.values.specs.Starts.{Started, starts};

use crate::parameter::{parameter_at, parameter_count};
use catalogue::row::start_of;

// The value that a program starts parameter k with; 0 where there is none.
fn start_at(table: &[u8], k: usize) -> i64
    requires { sound table.now ≡ true }
    ensures { result ≡ get_or (starts table.now) k (pos 0) }
{
    match parameter_at(table, k) {
        Some(p) => start_of(p.row),
        None => 0,
    }
}

// Fills a list with the start values, as many as there are parameters; later entries stay.
pub fn fill_starts(table: &[u8], values: &mut [i64]) -> usize
    requires { (sound table.now ≡ true) × (length (starts table.now) ≤ length values.old) }
    ensures { Started table.now values.old result values.new }
{
    let count = parameter_count(table);
    for k in 0..count {
        values[k] = start_at(table, k);
    }
    count
}
