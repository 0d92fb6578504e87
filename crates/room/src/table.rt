// The module table.
ghost use Rattle.std.specs.Prelude.{true, ◌≡◌};
ghost use Rattle.room.specs.Refusal.{number_of};
ghost use Rattle.room.specs.Table.{module_at, modules, sound, table_number};

use crate::modules::modules_of;
use crate::refusal::Refusal;
use catalogue::layout::Layout;
use record::begun::sound_length;

// How many records a table may have.
pub const MODULES: usize = 64;

// A module: its number and its place in the table, its layout, and the number of its first value.
#[derive(Clone, Copy)]
pub struct Module {
    pub number: usize,
    pub place: usize,
    pub layout: Layout,
    pub first: usize,
}

// Whether a table is sound.
pub fn is_sound(table: &[u8]) -> bool
    ensures { result ≡ sound table.now }
{
    // Not by `modules_of`, which requires a sound table.
    let mut place = 0;
    let mut left = MODULES;
    while place < table.len() {
        if left == 0 {
            return false;
        }
        let kind = table[place];
        let body = place + 1;
        let size = sound_length(kind, &table[body..]);
        if size == 0 {
            return false;
        }
        place = body + size;
        left -= 1;
    }
    true
}

// Refuses a table that is not sound.
#[tactic(auto, unfolding(crate::specs::Table::table_number))]
pub fn check(table: &[u8]) -> Result<(), Refusal>
    ensures { number_of result ≡ table_number table.now }
{
    if is_sound(table) {
        return Ok(());
    }
    Err(Refusal::Table)
}

// The module with a number.
pub fn module_at(table: &[u8], number: usize) -> Option<Module>
    requires { sound table.now ≡ true }
    ensures { result ≡ module_at (modules table.now) number }
{
    for m in modules_of(table) {
        if m.number == number {
            return Some(m);
        }
    }
    None
}
