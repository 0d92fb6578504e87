// The shape of a line, or why it has none.
ghost use Rattle.std.specs.Prelude.{◌≡◌, ◌≤◌, length};
ghost use Rattle.text.specs.Cut.{first_from};
ghost use Rattle.syntax.specs.Cause.{malformed};
ghost use Rattle.syntax.specs.Shape.{get_shape, opening, quoted, set_shape, shape};
ghost use Rattle.syntax.specs.Shape.Quotes.{quotes};

use crate::cause::{Cause, Malformed};
use text::cut::find;

// The parts of a line by their places: the opening and the closing quote and, in a set line, the `=`.
#[derive(Clone, Copy)]
pub enum Shape {
    Get(usize, usize),
    Set(usize, usize, usize),
}

// The places of a line's two quotes.
#[derive(Clone, Copy)]
struct Quotes {
    opening: usize,
    closing: usize,
}

fn malformed(cause: Cause, place: usize) -> Malformed
    ensures { result ≡ malformed cause place }
{
    Malformed { cause, place }
}

// The place of the first `b` from a place on, or the line's length where there is none.
fn find_from(line: &[u8], from: usize, b: u8) -> usize
    requires { from ≤ length line.now }
    ensures { result ≡ first_from b from line.now }
{
    from + find(&line[from..], b)
}

// Where the opening quote should stand: after the verb, or after one space after it.
fn opening(line: &[u8]) -> usize
    ensures { result ≡ opening line.now }
{
    if line.len() <= 2 {
        return 2;
    }
    if line[2] == b' ' {
        return 3;
    }
    2
}

// The two quotes: the one where it should stand, and the next; or which one is missing, and where that shows.
fn find_quotes(line: &[u8]) -> Result<Quotes, Malformed>
    ensures { result ≡ quotes line.now }
{
    let opening = opening(line);
    if line.len() <= opening {
        return Err(malformed(Cause::NoOpeningQuote, opening));
    }
    if line[opening] != b'"' {
        return Err(malformed(Cause::NoOpeningQuote, opening));
    }
    let closing = find_from(line, opening + 1, b'"');
    if closing < line.len() {
        return Ok(Quotes { opening, closing });
    }
    Err(malformed(Cause::NoClosingQuote, line.len()))
}

// After `GA`: the two quotes.
fn get_shape(line: &[u8]) -> Result<Shape, Malformed>
    ensures { result ≡ quoted line.now (get_shape line.now) }
{
    let quotes = find_quotes(line)?;
    Ok(Shape::Get(quotes.opening, quotes.closing))
}

// After `SA`: the two quotes, and a `=` after them.
fn set_shape(line: &[u8]) -> Result<Shape, Malformed>
    ensures { result ≡ quoted line.now (set_shape line.now) }
{
    let quotes = find_quotes(line)?;
    let equal = find_from(line, quotes.closing + 1, b'=');
    if equal < line.len() {
        return Ok(Shape::Set(quotes.opening, quotes.closing, equal));
    }
    Err(malformed(Cause::NoEquals, line.len()))
}

// The shape of a line, or the first cause why it has none: over 64 bytes, no verb, no opening quote, no closing quote, no `=` in a set line.
pub fn shape_of(line: &[u8]) -> Result<Shape, Malformed>
    ensures { result ≡ shape line.now }
{
    if 64 < line.len() {
        return Err(malformed(Cause::Overrun, 64));
    }
    if line.len() < 2 {
        return Err(malformed(Cause::NoVerb, 0));
    }
    if line[1] != b'A' {
        return Err(malformed(Cause::NoVerb, 0));
    }
    match line[0] {
        b'S' => set_shape(line),
        b'G' => get_shape(line),
        _ => Err(malformed(Cause::NoVerb, 0)),
    }
}
