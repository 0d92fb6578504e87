// Calls for a host that does not know the catalogue: how many values a table has, and the start values.
ghost use Rattle.std.specs.Prelude.{◌≡◌};
ghost use Rattle.capi.specs.Rows.{count_answer, starts_answer, tells};

use room::table::is_sound;
use values::parameter::parameter_count;
use values::starts::fill_starts;

// How many values a table has.
#[unsafe(no_mangle)]
pub extern "C" fn egrivundo_value_count(table: &[u8], told: &mut [u64; 1]) -> u8
    ensures { tells result told.new ≡ count_answer table.now }
{
    if !is_sound(table) {
        *told = [0];
        return 1;
    }
    let count = parameter_count(table);
    *told = [count as u64];
    0
}

// Fills a list with the start values.
#[unsafe(no_mangle)]
pub extern "C" fn egrivundo_starts(table: &[u8], values: &mut [i64]) -> u8
    ensures { tells result values.new ≡ starts_answer table.now values.old }
{
    if !is_sound(table) {
        return 1;
    }
    let count = parameter_count(table);
    if values.len() != count {
        return 2;
    }
    fill_starts(table, values);
    0
}
