// What an answer's number says, in words for a host's log or screen.
ghost use Rattle.std.specs.Prelude.{◌≡◌, ◌≤◌, length};
ghost use Rattle.capi.specs.Refusal.{padded, refusal_text};

use text::written::put_bytes;

// Puts words at the start of a block, and zero bytes behind them.
fn put_words(text: &mut [u8; 64], words: &[u8])
    requires { length words.now ≤ 64 }
    ensures { text.new ≡ padded words.now }
{
    *text = [0; 64];
    let block: &mut [u8] = text;
    put_bytes(block, 0, words);
}

// The words of an answer's number, with zero bytes behind them.
#[unsafe(no_mangle)]
pub extern "C" fn egrivundo_refusal(number: u8, text: &mut [u8; 64])
    ensures { text.new ≡ refusal_text number }
{
    match number {
        0 => put_words(text, b"accepted"),
        1 => put_words(text, b"the table is not sound"),
        2 => put_words(text, b"values: wrong length, or one that is not permitted"),
        3 => put_words(text, b"the reply buffer has under 64 bytes"),
        4 => put_words(text, b"the port claims over 64 held bytes"),
        5 => put_words(text, b"selection: wrong length, or a byte over 1"),
        6 => put_words(
            text,
            b"wanted: wrong length, or a chosen entry is not permitted",
        ),
        7 => put_words(text, b"a wanted change is one that no line can make"),
        8 => put_words(text, b"the list does not fit its buffer"),
        9 => put_words(
            text,
            b"no such module or row, or a value that it does not take",
        ),
        10 => put_words(
            text,
            b"connections: wrong size, counts or number, or already so",
        ),
        _ => put_words(text, b"no answer has this number"),
    }
}
