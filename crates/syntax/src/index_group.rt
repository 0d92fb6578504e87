// An index group: a number or a pair of numbers.
ghost use Rattle.std.specs.Prelude.{◌≡◌};
ghost use Rattle.text.specs.Number.{read_number};
ghost use Rattle.syntax.specs.IndexGroup.{closed_pair, inside_pair, pair_of, read_group, read_pair};

use catalogue::groups::Group;
use text::cut::find;
use text::number::read_number;

// A pair of two numbers.
fn read_numbers(first: &[u8], second: &[u8]) -> Option<Group>
    ensures { result ≡ pair_of (read_number 3 first.now) (read_number 3 second.now) }
{
    let a = read_number(first, 3)?;
    let b = read_number(second, 3)?;
    Some(Group::Pair(a, b))
}

// A pair, from what stands before its comma and what stands after it.
fn read_closed(first: &[u8], rest: &[u8]) -> Option<Group>
    ensures { result ≡ closed_pair first.now rest.now }
{
    let end = find(rest, b')');
    if rest.len() - end == 1 {
        return read_numbers(first, &rest[..end]);
    }
    None
}

// A pair after its `(`.
fn read_inside(s: &[u8]) -> Option<Group>
    ensures { result ≡ inside_pair s.now }
{
    let comma = find(s, b',');
    if comma < s.len() {
        return read_closed(&s[..comma], &s[comma + 1..]);
    }
    None
}

// A pair.
pub(crate) fn read_pair(s: &[u8]) -> Option<Group>
    ensures { result ≡ read_pair s.now }
{
    if s.len() == 0 {
        return None;
    }
    if s[0] == b'(' {
        return read_inside(&s[1..]);
    }
    None
}

// The group that a text says: a number, or else a pair.
pub(crate) fn read_group(s: &[u8]) -> Option<Group>
    ensures { result ≡ read_group s.now }
{
    match read_number(s, 3) {
        Some(a) => Some(Group::Single(a)),
        None => read_pair(s),
    }
}
