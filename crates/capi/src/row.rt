// A call for a host that does not know the catalogue: a row, told in seven numbers.
ghost use Rattle.std.specs.Prelude.{◌≡◌};
ghost use Rattle.capi.specs.Rows.{first_index, kind_number, row_answer, row_numbers, second_index, tells};
ghost use Rattle.capi.specs.Rows.Telling.{Narrow, NarrowIndices};

use catalogue::row::{Indices, Kind, Row};
use room::table::is_sound;
use values::by_row::by_row;

// The first index of a row.
fn first_index(indices: Indices) -> i64
    requires { NarrowIndices indices }
    ensures { result ≡ first_index indices }
{
    match indices {
        Indices::OneGroup(a) => a as i64,
        Indices::TwoGroups(a, _) => a as i64,
    }
}

// The second index of a row, or -1.
fn second_index(indices: Indices) -> i64
    requires { NarrowIndices indices }
    ensures { result ≡ second_index indices }
{
    match indices {
        Indices::OneGroup(_) => -1,
        Indices::TwoGroups(_, b) => b as i64,
    }
}

// The number of a kind.
fn kind_number(kind: Kind) -> i64
    ensures { result ≡ kind_number kind }
{
    match kind {
        Kind::Level => 0,
        Kind::Switch => 1,
        Kind::Number => 2,
        Kind::Word => 3,
    }
}

// A row in seven numbers.
fn row_numbers(row: Row) -> [i64; 7]
    requires { Narrow row }
    ensures { result ≡ row_numbers row }
{
    let indices = row.indices;
    let kind = row.kind;
    let first = first_index(indices);
    let second = second_index(indices);
    let number = kind_number(kind);
    let step = row.step as i64;
    if row.settable {
        return [first, second, number, row.low, row.high, step, 1];
    }
    [first, second, number, row.low, row.high, step, 0]
}

// A row, named by the numbers of its module and of itself, both counted from 0: `told` becomes its first index, its second or -1, its kind (0 level, 1 switch, 2 number, 3 word), low,
// high, step, and 1 where a line may set it.
#[unsafe(no_mangle)]
pub extern "C" fn egrivundo_row(table: &[u8], owner: u64, row: u64, told: &mut [i64; 7]) -> u8
    ensures { tells result told.new ≡ row_answer table.now owner row }
{
    if !is_sound(table) {
        *told = [0, 0, 0, 0, 0, 0, 0];
        return 1;
    }
    match by_row(table, owner as usize, row as usize) {
        Some(p) => {
            let found = p.row;
            *told = row_numbers(found);
            0
        }
        None => {
            *told = [0, 0, 0, 0, 0, 0, 0];
            9
        }
    }
}
