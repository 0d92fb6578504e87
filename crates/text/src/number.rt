// Number texts: read, measured, and written into a lent buffer.
ghost use Rattle.std.specs.Prelude.{◌≡◌, ◌+◌, ◌≤◌, length};
ghost use Rattle.text.specs.Number.{read_number};
ghost use Rattle.text.specs.Digits.{digits};
ghost use Rattle.text.specs.Written.{Wrote};

use crate::digit::{digit_of, is_digit};
use crate::written::put_byte;

// The number that `s` says, where it is one to `width` digits.
#[tactic(auto, using(crate::specs::Number::Passed::passing))]
pub fn read_number(s: &[u8], width: usize) -> Option<u64>
    requires { width ≤ 19 }
    ensures { result ≡ read_number width s.now }
{
    if s.len() == 0 {
        return None;
    }
    if width < s.len() {
        return None;
    }
    let mut n = 0;
    for b in s {
        if !is_digit(*b) {
            return None;
        }
        n = n * 10 + digit_of(*b);
    }
    Some(n)
}

// How many digits `n` has.
pub fn number_length(n: u64) -> usize
    ensures { result ≡ length (digits n) }
{
    let mut rest = n;
    let mut count = 1;
    // No index is counted here: a number is divided until it has one digit.
    while 10 <= rest {
        rest = rest / 10;
        count += 1;
    }
    count
}

// The digits of `n`, without leading zeros.
pub fn put_number(buffer: &mut [u8], at: usize, n: u64) -> usize
    requires { at + length (digits n) ≤ length buffer.old }
    ensures { Wrote buffer.old at (digits n) result buffer.new }
{
    if n < 10 {
        return put_byte(buffer, at, b'0' + n as u8);
    }
    let next = put_number(buffer, at, n / 10);
    put_byte(buffer, next, b'0' + (n % 10) as u8)
}
