// Level texts: read byte by byte from the left, measured, and written into a lent buffer.
ghost use Rattle.std.specs.Prelude.{◌≡◌, [], ◌+◌, ◌<◌, ◌≤◌, length};
ghost use Rattle.text.specs.Written.{Wrote};
ghost use Rattle.text.specs.Level.{level_more, level_point, level_tenth, level_text, level_whole, read_level, short_tenth_text, sign_text, tenth_text, whole_text};
ghost use Rattle.text.specs.Level.From.{ReadOn, Small, level_from};

use crate::digit::{digit_of, is_digit};
use crate::number::{number_length, put_number};
use crate::sign::{magnitude, with_sign};
use crate::written::put_byte;

// A level text as far as it is read: the number is what the digits say, and the flag tells whether a `-` stands before them.
#[derive(Clone, Copy)]
enum Reading {
    Start,
    Sign,
    Digit(bool, u64),
    Digits(bool, u64),
    Point(bool, u64),
    Tenth(bool, u64),
}

// After the point: a digit.
fn read_tenth(minus: bool, whole: u64, b: u8) -> Option<Reading>
    requires { whole < 100 }
    ensures { ReadOn (level_tenth minus whole) b result }
{
    if is_digit(b) {
        return Some(Reading::Tenth(minus, whole * 10 + digit_of(b)));
    }
    None
}

// After the second digit: a point.
fn read_point(minus: bool, whole: u64, b: u8) -> Option<Reading>
    requires { whole < 100 }
    ensures { ReadOn (level_point minus whole) b result }
{
    if b == b'.' {
        return Some(Reading::Point(minus, whole));
    }
    None
}

// After the first digit: a second one, or a point.
fn read_second(minus: bool, whole: u64, b: u8) -> Option<Reading>
    requires { whole < 10 }
    ensures { ReadOn (level_more minus whole) b result }
{
    if is_digit(b) {
        return Some(Reading::Digits(minus, whole * 10 + digit_of(b)));
    }
    read_point(minus, whole, b)
}

// After the sign: a digit.
fn read_first(minus: bool, b: u8) -> Option<Reading>
    ensures { ReadOn (level_whole minus) b result }
{
    if is_digit(b) {
        return Some(Reading::Digit(minus, digit_of(b)));
    }
    None
}

// At the start: a `-`, or a digit.
fn read_start(b: u8) -> Option<Reading>
    ensures { ReadOn read_level b result }
{
    if b == b'-' {
        return Some(Reading::Sign);
    }
    read_first(false, b)
}

// One byte more.
fn read_byte(reading: Reading, b: u8) -> Option<Reading>
    requires { Small reading }
    ensures { ReadOn (level_from reading) b result }
{
    match reading {
        Reading::Start => read_start(b),
        Reading::Sign => read_first(true, b),
        Reading::Digit(minus, whole) => read_second(minus, whole, b),
        Reading::Digits(minus, whole) => read_point(minus, whole, b),
        Reading::Point(minus, whole) => read_tenth(minus, whole, b),
        Reading::Tenth(_, _) => None,
    }
}

// The level that is read where the text ends.
#[tactic(auto, using(crate::specs::Level::Passed::end_rules))]
fn read_end(reading: Reading) -> Option<i64>
    requires { Small reading }
    ensures { result ≡ level_from reading [] }
{
    match reading {
        Reading::Start | Reading::Sign | Reading::Point(_, _) => None,
        Reading::Digit(minus, whole) | Reading::Digits(minus, whole) => Some(with_sign(
            minus,
            whole * 10,
        )),
        Reading::Tenth(minus, tenths) => Some(with_sign(minus, tenths)),
    }
}

// The level that `s` says, in tenths of a dB: perhaps a `-`, then one or two digits, then perhaps a point and one digit more.
#[tactic(auto, using(crate::specs::Level::Passed::level_rules))]
pub fn read_level(s: &[u8]) -> Option<i64>
    ensures { result ≡ read_level s.now }
{
    let mut reading = Reading::Start;
    for b in s {
        reading = read_byte(reading, *b)?;
    }
    read_end(reading)
}

// How long the sign of `v` is.
fn sign_length(v: i64) -> usize
    ensures { result ≡ length (sign_text v) }
{
    if v < 0 {
        return 1;
    }
    0
}

// How long the tenth `d` is where a zero is left out.
fn tenth_length(d: u64) -> usize
    ensures { result ≡ length (short_tenth_text d) }
{
    if d == 0 {
        return 0;
    }
    2
}

// How long the shortest text of `v` tenths is.
pub fn level_length(v: i64) -> usize
    ensures { result ≡ length (level_text v) }
{
    let size = magnitude(v);
    sign_length(v) + number_length(size / 10) + tenth_length(size % 10)
}

// A `-` where `v` is below 0.
fn put_sign(buffer: &mut [u8], at: usize, v: i64) -> usize
    requires { at + length (sign_text v) ≤ length buffer.old }
    ensures { Wrote buffer.old at (sign_text v) result buffer.new }
{
    if 0 <= v {
        return at;
    }
    put_byte(buffer, at, b'-')
}

// The sign and the whole part of `v` tenths.
fn put_whole(buffer: &mut [u8], at: usize, v: i64) -> usize
    requires { at + length (whole_text v) ≤ length buffer.old }
    ensures { Wrote buffer.old at (whole_text v) result buffer.new }
{
    let next = put_sign(buffer, at, v);
    put_number(buffer, next, magnitude(v) / 10)
}

// A point and the tenth `d`.
fn put_tenth(buffer: &mut [u8], at: usize, d: u64) -> usize
    requires d_bound { d < 10 }
    requires at_in_bounds { at + 2 ≤ length buffer.old }
    ensures { Wrote buffer.old at (tenth_text d) result buffer.new }
{
    let next = put_byte(buffer, at, b'.');
    put_byte(buffer, next, b'0' + d as u8)
}

// The shortest text of `v` tenths.
pub fn put_level(buffer: &mut [u8], at: usize, v: i64) -> usize
    requires { at + length (level_text v) ≤ length buffer.old }
    ensures { Wrote buffer.old at (level_text v) result buffer.new }
{
    let tenth = magnitude(v) % 10;
    let next = put_whole(buffer, at, v);
    if tenth == 0 {
        return next;
    }
    put_tenth(buffer, next, tenth)
}
