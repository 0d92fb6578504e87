// What C is told of a fault: two numbers.
ghost use Rattle.std.specs.Prelude.{◌≡◌};
ghost use Rattle.line.specs.Fault.{fault_numbers};
ghost use Rattle.syntax.specs.Cause.{cause_number};

use syntax::cause::{Cause, Malformed};

// The number of a cause.
fn cause_number(cause: Cause) -> u64
    ensures { result ≡ cause_number cause }
{
    match cause {
        Cause::Overrun => 1,
        Cause::NoVerb => 2,
        Cause::NoOpeningQuote => 3,
        Cause::NoClosingQuote => 4,
        Cause::NoEquals => 5,
    }
}

// The number of its cause, and its place; zeros where there is none.
#[tactic(auto, using(line::specs::Fault::Laws::numbering))]
pub(crate) fn fault_numbers(fault: Option<Malformed>) -> [u64; 2]
    ensures { result ≡ fault_numbers fault }
{
    match fault {
        None => [0, 0],
        Some(m) => [cause_number(m.cause), m.place as u64],
    }
}
