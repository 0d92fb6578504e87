// A call for a host that does not know the catalogue: where the value of a row stands.
ghost use Rattle.std.specs.Prelude.{◌≡◌};
ghost use Rattle.capi.specs.Rows.{place_answer, tells};

use room::table::is_sound;
use values::by_row::by_row;

// The place of a row's value in the list. The row is named by the numbers of its module and of itself, both counted from 0.
#[unsafe(no_mangle)]
pub extern "C" fn egrivundo_place(table: &[u8], owner: u64, row: u64, told: &mut [u64; 1]) -> u8
    ensures { tells result told.new ≡ place_answer table.now owner row }
{
    if !is_sound(table) {
        *told = [0];
        return 1;
    }
    match by_row(table, owner as usize, row as usize) {
        Some(p) => {
            let m = p.owner;
            let place = m.first + p.number;
            *told = [place as u64];
            0
        }
        None => {
            *told = [0];
            9
        }
    }
}
