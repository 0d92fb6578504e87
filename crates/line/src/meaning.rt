// What a line means: why it is malformed, the first code that applies, or the parameter that it names.
ghost use Rattle.std.specs.Prelude.{true, ◌≡◌, pos, get_or, length, ◌+◌, ◌<◌};
ghost use Rattle.catalogue.specs.Catalogue.{known_layout};
ghost use Rattle.room.specs.Label.{bearer};
ghost use Rattle.text.specs.Cut.{part};
ghost use Rattle.values.specs.Parameters.{place};
ghost use Rattle.room.specs.Table.{sound};
ghost use Rattle.values.specs.Room.{room_of, row_in};
ghost use Rattle.syntax.specs.IndexPart.{read_indices};
ghost use Rattle.line.specs.Meaning.{bearer_of, get_of, in_room, indexed, of_shape, put_of, set_of};
ghost use Rattle.line.specs.Meaning.Reading.{Holds, KnownBearer, Seated, missing, sought_in};
ghost use Rattle.syntax.specs.Shape as syntax;
ghost use Rattle.syntax.specs.Value.{read_value};

use catalogue::groups::Part;
use room::label::find_bearer;
use room::table::Module;
use syntax::cause::{Cause, Malformed};
use syntax::index_part::read_indices;
use syntax::shape::Shape;
use syntax::value_text::read_value;
use values::control::named;
use values::parameter::Parameter;

// Why the line is malformed and where, a code that it is answered with, a part of a parameter to tell, or a parameter and the value it is set to.
#[derive(Clone, Copy)]
pub enum Meaning {
    Malformed(Cause, usize),
    Code(u8),
    Get(Parameter, Part),
    Put(Parameter, i64),
}

// What an index part names in a module.
fn indexed(m: Module, part: &[u8]) -> Option<(Parameter, Part)>
    requires { known_layout m.layout ≡ true }
    ensures { result ≡ indexed m (read_indices part.now) }
{
    match read_indices(part) {
        Some(groups) => named(m, groups),
        None => None,
    }
}

// What the bearer of a label and an index part name.
fn sought_in(bearer: Option<Module>, part: &[u8]) -> Option<(Parameter, Part)>
    requires { KnownBearer bearer }
    ensures { result ≡ sought_in bearer (read_indices part.now) }
{
    indexed(bearer?, part)
}

// The code where nothing is named; the label comes first.
fn missing(bearer: Option<Module>) -> u8
    ensures { result ≡ missing bearer }
{
    match bearer {
        Some(_) => 2,
        None => 1,
    }
}

// The value that a text puts to a parameter, by the part that is named, or the code 3. Only the contract needs the table: it says in which room the value is judged.
fn put_meaning(table: &[u8], values: &[i64], p: Parameter, named: Part, text: &[u8]) -> Meaning
    requires { Holds (room_of table.now) values.now p named }
    ensures { result ≡ put_of p (read_value (row_in (room_of table.now) p) named (get_or values.now (place p) (pos 0)) text.now) }
{
    let place = p.owner.first + p.number;
    let present = values[place];
    match read_value(p.row, named, present, text) {
        Some(x) => Meaning::Put(p, x),
        None => Meaning::Code(3),
    }
}

// A get line, from the bearer of its label and the place of its closing quote.
fn get_line(line: &[u8], bearer: Option<Module>, close: usize) -> Meaning
    requires { KnownBearer bearer × (close < length line.now) }
    ensures { result ≡ get_of (in_room bearer (read_indices (part line.now (close + 1) (length line.now)))) }
{
    match sought_in(bearer, &line[close + 1..]) {
        Some((p, named)) => Meaning::Get(p, named),
        None => Meaning::Code(missing(bearer)),
    }
}

// A set line, from the bearer of its label and the places of its closing quote and its `=`.
fn set_line(
    table: &[u8],
    values: &[i64],
    line: &[u8],
    bearer: Option<Module>,
    close: usize,
    equal: usize,
) -> Meaning
    requires rows_value { Seated (room_of table.now) values.now bearer }
    requires close_lt_equal { (close < equal) × (equal < length line.now) }
    ensures { result ≡ set_of (room_of table.now) values.now (part line.now (equal + 1) (length line.now)) (in_room bearer (read_indices (part line.now (close + 1) equal))) }
{
    match sought_in(bearer, &line[close + 1..equal]) {
        Some((p, named)) => put_meaning(table, values, p, named, &line[equal + 1..]),
        None => Meaning::Code(missing(bearer)),
    }
}

// What a shaped line means, where the bearer of its label is known.
pub(crate) fn meaning_of(
    table: &[u8],
    values: &[i64],
    line: &[u8],
    bearer: Option<Module>,
    shape: Result<Shape, Malformed>,
) -> Meaning
    requires { Seated (room_of table.now) values.now bearer × (shape ≡ syntax.shape line.now) }
    ensures { result ≡ of_shape (room_of table.now) values.now line.now bearer shape }
{
    match shape {
        Err(Malformed { cause, place }) => Meaning::Malformed(cause, place),
        Ok(Shape::Get(_, close)) => get_line(line, bearer, close),
        Ok(Shape::Set(_, close, equal)) => set_line(table, values, line, bearer, close, equal),
    }
}

// The module that alone bears what stands between two quotes.
fn quoted_bearer(table: &[u8], line: &[u8], quote: usize, close: usize) -> Option<Module>
    requires table_value { sound table.now ≡ true }
    requires quote_lt_close { (quote < close) × (close < length line.now) }
    ensures { result ≡ bearer table.now (part line.now (quote + 1) close) }
{
    find_bearer(table, &line[quote + 1..close])
}

// The module that alone bears the label of a shaped line.
pub(crate) fn bearer_of(
    table: &[u8],
    line: &[u8],
    shape: Result<Shape, Malformed>,
) -> Option<Module>
    requires { (sound table.now ≡ true) × (shape ≡ syntax.shape line.now) }
    ensures { result ≡ bearer_of table.now line.now shape }
{
    match shape {
        Err(_) => None,
        Ok(Shape::Get(quote, close)) => quoted_bearer(table, line, quote, close),
        Ok(Shape::Set(quote, close, _)) => quoted_bearer(table, line, quote, close),
    }
}
