// The writing restore call, compared with what it must tell and write.
ghost use Rattle.std.specs.Prelude.{◌≡◌};
ghost use Rattle.restore.specs.Restored.{restored};
ghost use Rattle.wish.specs.Target.{wish_of};
ghost use Rattle.worked.specs.Restored.{Compares, list_right, told};

use crate::compare::same_bytes;
use restore::restore_write;
use restore_list::module_measuring::Size;
use room::refusal::{Refusal, number_of};

// Whether a restore call that left its list in this buffer told this number, and this list with so many lines; a refusal counts zero.
#[tactic(auto, using(crate::specs::Restored::Telling::telling))]
fn told_right(
    sized: Result<Size, Refusal>,
    buffer: &[u8],
    number: u8,
    lines: usize,
    list: &[u8],
) -> bool
    ensures { result ≡ list_right (told (restored sized) buffer.now) number lines list.now }
{
    let size = sized.unwrap_or(Size { bytes: 0, lines: 0 });
    let bytes = size.bytes;
    if number_of(sized) != number {
        return false;
    }
    if size.lines != lines {
        return false;
    }
    if bytes != list.len() {
        return false;
    }
    if buffer.len() < bytes {
        return false;
    }
    same_bytes(&buffer[..bytes], list)
}

// Whether the restore call tells this number, and this list with so many lines.
pub(crate) fn list_right(
    table: &[u8],
    present: &[i64],
    selection: &[u8],
    wanted: &[i64],
    buffer: &mut [u8],
    number: u8,
    lines: usize,
    list: &[u8],
) -> bool
    ensures { Compares (wish_of table.now present.now selection.now wanted.now) buffer.old number lines list.now result buffer.new }
{
    let sized = restore_write(table, present, selection, wanted, buffer);
    told_right(sized, buffer, number, lines, list)
}
