// Which module alone bears a text, and how long a label is.
ghost use Rattle.std.specs.Prelude.{true, ◌≡◌, ◌+◌, ◌≤◌, length, take, drop};
ghost use Rattle.text.specs.Cut.{before};
ghost use Rattle.room.specs.Label.{bearer};
ghost use Rattle.room.specs.Table.{sound};

use crate::table::Module;
use catalogue::row_count;
use record::body::body_length;
use record::field::label_right;
use record::layout::layout_at;
use text::cut::find;

// How long the label of the record at a place is.
pub fn label_length(table: &[u8], place: usize) -> usize
    requires { place + 33 ≤ length table.now }
    ensures { result ≡ length (before 0 (take 32 (drop (place + 1) table.now))) }
{
    find(&table[place + 1..place + 33], 0)
}

// The module that alone bears a text.
pub fn find_bearer(table: &[u8], text: &[u8]) -> Option<Module>
    requires { sound table.now ≡ true }
    ensures { result ≡ bearer table.now text.now }
{
    if !label_right(text) {
        return None;
    }
    let mut found = None;
    let mut number = 0;
    let mut place = 0;
    let mut first = 0;
    'records: loop {
        if table.len() <= place {
            break found;
        }
        let own = number;
        let here = place;
        let before = first;
        let label = place + 1;
        let layout = layout_at(table, here);
        number += 1;
        first += row_count(layout);
        place = label + body_length(layout.kind);
        // From the end on: the labels of a room are more alike at their beginnings. The text is not empty.
        let mut i = text.len();
        loop {
            i -= 1;
            if table[label + i] != text[i] {
                continue 'records;
            }
            if i == 0 {
                break;
            }
        }
        let size = text.len();
        if size < 32 && table[label + size] != 0 {
            continue 'records;
        }
        if let Some(_) = found {
            break None;
        }
        found = Some(Module {
            number: own,
            place: here,
            layout,
            first: before,
        });
    }
}
