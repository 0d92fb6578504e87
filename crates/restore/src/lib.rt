// The two restore calls, with demand 3 in their contracts: how long the list is, and writing it.
#![tactic(auto)]

ghost use Rattle.std.specs.Prelude.{true, ◌≡◌};
ghost use Rattle.room.specs.Refusal.{number_of};
ghost use Rattle.room.specs.Table.{sound};
ghost use Rattle.restore.specs.Demand.{Restores, Sizes};
ghost use Rattle.restore.specs.Restored.{restored};
ghost use Rattle.wish.specs.Listing.{Admitted, selection_number, test_number, wanted_number};
ghost use Rattle.values.specs.Room.{room_of};
ghost use Rattle.wish.specs.Target.{selection_right, wish_of};

use restore_list::list::write;
use restore_list::measure::measure;
use restore_list::module_measuring::{Measured, Size};
use room::refusal::Refusal;
use room::table::check;
use values::check_values;
use wish::{selection_right, wanted_right};

// Refuses a selection that does not mark modules of the table.
#[tactic(auto, using(crate::specs::Demand::Testing::wish_testing))]
fn check_selection(table: &[u8], selection: &[u8]) -> Result<(), Refusal>
    requires { sound table.now ≡ true }
    ensures { number_of result ≡ selection_number table.now selection.now }
{
    if selection_right(table, selection) {
        return Ok(());
    }
    Err(Refusal::Selection)
}

// Refuses a wanted list that does not have one permitted value for each parameter of the chosen modules.
#[tactic(auto, using(crate::specs::Demand::Testing::wish_testing))]
fn check_wanted(table: &[u8], selection: &[u8], wanted: &[i64]) -> Result<(), Refusal>
    requires { (sound table.now ≡ true) × (selection_right table.now selection.now ≡ true) }
    ensures { number_of result ≡ wanted_number (room_of table.now) selection.now wanted.now }
{
    if !wanted_right(table, selection, wanted) {
        return Err(Refusal::Wanted);
    }
    Ok(())
}

// The tests that come before the list: refuses for the first that fails.
#[tactic(auto, using(crate::specs::Demand::Testing::testing))]
fn check_wish(
    table: &[u8],
    present: &[i64],
    selection: &[u8],
    wanted: &[i64],
) -> Result<(), Refusal>
    ensures { number_of result ≡ test_number (wish_of table.now present.now selection.now wanted.now) }
{
    check(table)?;
    check_values(table, present)?;
    check_selection(table, selection)?;
    check_wanted(table, selection, wanted)
}

// The list of a wish that passes these tests, measured.
#[tactic(auto, using(crate::proofs::Laws::Demand::Calling::measuring_call))]
fn size_changes(
    table: &[u8],
    present: &[i64],
    selection: &[u8],
    wanted: &[i64],
) -> Result<Size, Refusal>
    requires { Admitted (wish_of table.now present.now selection.now wanted.now) }
    ensures { Sizes (wish_of table.now present.now selection.now wanted.now) (restored result) }
{
    match measure(table, present, selection, wanted) {
        Measured::Beyond => Err(Refusal::OutOfReach),
        Measured::Within(bytes, lines) => Ok(Size { bytes, lines }),
    }
}

// Tested, then measured: what both calls begin with.
#[tactic(auto, using(crate::proofs::Laws::Demand::Calling::testing_call))]
fn size_list(
    table: &[u8],
    present: &[i64],
    selection: &[u8],
    wanted: &[i64],
) -> Result<Size, Refusal>
    ensures { Sizes (wish_of table.now present.now selection.now wanted.now) (restored result) }
{
    check_wish(table, present, selection, wanted)?;
    size_changes(table, present, selection, wanted)
}

// How long the shortest list is that brings the chosen modules to their wanted values.
pub fn restore_size(
    table: &[u8],
    present: &[i64],
    selection: &[u8],
    wanted: &[i64],
) -> Result<Size, Refusal>
    ensures { Sizes (wish_of table.now present.now selection.now wanted.now) (restored result) }
{
    size_list(table, present, selection, wanted)
}

// Writes that list, or refuses and writes nothing. Everything is tested again.
#[tactic(auto, using(crate::proofs::Laws::Demand::Calling::writing_call))]
pub fn restore_write(
    table: &[u8],
    present: &[i64],
    selection: &[u8],
    wanted: &[i64],
    list: &mut [u8],
) -> Result<Size, Refusal>
    ensures { Restores (wish_of table.now present.now selection.now wanted.now) list.old (restored result) list.new }
{
    let size = size_list(table, present, selection, wanted)?;
    if list.len() < size.bytes {
        return Err(Refusal::NoRoom);
    }
    if size.lines == 0 {
        return Ok(size);
    }
    write(table, present, selection, wanted, list);
    Ok(size)
}
