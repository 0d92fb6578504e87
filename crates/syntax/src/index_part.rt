// The index part of a line.
ghost use Rattle.std.specs.Prelude.{◌≡◌};
ghost use Rattle.syntax.specs.IndexGroup.{read_group, read_pair};
ghost use Rattle.syntax.specs.IndexPart.{groups, one_group, read_indices, two_groups};

use crate::index_group::{read_group, read_pair};
use catalogue::groups::{Group, Groups};
use text::cut::find;
use text::number::read_number;

// One group that is no number.
fn read_one_pair(s: &[u8]) -> Option<Groups>
    ensures { result ≡ one_group (read_pair s.now) }
{
    Some(Groups::OneGroup(read_pair(s)?))
}

// One group: most lines name a parameter by one number.
fn read_one(s: &[u8]) -> Option<Groups>
    ensures { result ≡ one_group (read_group s.now) }
{
    match read_number(s, 3) {
        Some(a) => Some(Groups::OneGroup(Group::Single(a))),
        None => read_one_pair(s),
    }
}

// Two groups.
fn read_two(first: &[u8], second: &[u8]) -> Option<Groups>
    ensures { result ≡ two_groups (read_group first.now) (read_group second.now) }
{
    let g = read_group(first)?;
    let h = read_group(second)?;
    Some(Groups::TwoGroups(g, h))
}

// After the first `>`: one group, or two with a `>` between them.
fn read_groups(s: &[u8]) -> Option<Groups>
    ensures { result ≡ groups s.now }
{
    let arrow = find(s, b'>');
    if arrow < s.len() {
        return read_two(&s[..arrow], &s[arrow + 1..]);
    }
    read_one(s)
}

// The index groups that an index part says: a `>` with a group, once or twice.
pub fn read_indices(part: &[u8]) -> Option<Groups>
    ensures { result ≡ read_indices part.now }
{
    if part.len() == 0 {
        return None;
    }
    if part[0] == b'>' {
        return read_groups(&part[1..]);
    }
    None
}
