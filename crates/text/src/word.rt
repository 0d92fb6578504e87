// Routing words: an output read and put, the one output in which two words differ, and a word's text.
ghost use Rattle.std.specs.Prelude.{◌≡◌, ◌+◌, ◌-◌, ◌^◌, ◌<◌, ◌≤◌, length};
ghost use Rattle.text.specs.Word.{bit, hex_text, only_differing, read_hex, with_bit};
ghost use Rattle.text.specs.Written.{Wrote};

use crate::hex::{hex_digit, hex_value, is_hex_digit};

// 1 where `word` has `output`, else 0. Output 1 is the highest of the 32 bits.
pub fn bit_of(output: u64, word: u64) -> u64
    requires le_output { 1 ≤ output }
    requires output_bound { output ≤ 32 }
    ensures { result ≡ bit output word }
{
    (word >> (32 - output)) % 2
}

// The bit of an output alone.
pub fn place_of(output: u64) -> u64
    requires le_output { 1 ≤ output }
    requires output_bound { output ≤ 32 }
    ensures { result ≡ 2 ^ (32 - output) }
{
    1 << (32 - output)
}

// `word` with `b` for `output`, and every other output as it was.
pub fn with_bit(output: u64, b: u64, word: u64) -> u64
    requires le_output { 1 ≤ output }
    requires output_bound { output ≤ 32 }
    requires b_bound { b < 2 }
    ensures { result ≡ with_bit output b word }
{
    let had = bit_of(output, word);
    if had == b {
        return word;
    }
    let place = place_of(output);
    if b == 0 {
        return word - place;
    }
    word + place
}

// The output in which `v` and `w` differ, where it is one alone, else 0.
pub fn only_differing(v: u64, w: u64) -> u64
    ensures { result ≡ only_differing v w }
{
    let mut a = v % 4294967296;
    let mut b = w % 4294967296;
    if a == b {
        return 0;
    }
    let mut output = 32;
    // No index is counted here: two numbers are halved until they differ in the last bit.
    while a % 2 == b % 2 {
        a = a / 2;
        b = b / 2;
        output -= 1;
    }
    if a / 2 == b / 2 {
        return output;
    }
    0
}

// The word that `s` says, where it is exactly eight hex digits.
#[tactic(auto, using(crate::specs::Word::Reading::hex_passing))]
pub fn read_word(s: &[u8]) -> Option<u64>
    ensures { result ≡ read_hex s.now }
{
    if s.len() != 8 {
        return None;
    }
    let mut n = 0;
    for b in s {
        if !is_hex_digit(*b) {
            return None;
        }
        n = n * 16 + hex_value(*b);
    }
    Some(n)
}

// The eight hex digits of `word`.
#[tactic(auto, using(crate::specs::Word::Writing::word_writing))]
pub fn put_word(buffer: &mut [u8], at: usize, word: u64) -> usize
    requires { at + length (hex_text word) ≤ length buffer.old }
    ensures { Wrote buffer.old at (hex_text word) result buffer.new }
{
    for i in 0..8 {
        buffer[at + i] = hex_digit((word >> (28 - 4 * i)) % 16);
    }
    at + 8
}
