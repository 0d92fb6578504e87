// Why a line is malformed.
ghost use Rattle.std.specs.Prelude.{◌≡◌};
ghost use Rattle.syntax.specs.Cause.{cause_number};

// The causes, in the order in which they are looked for: the first that applies is told.
#[derive(Clone, Copy)]
pub enum Cause {
    Overrun,
    NoVerb,
    NoOpeningQuote,
    NoClosingQuote,
    NoEquals,
}

// The number of a cause.
impl From<Cause> for u8 {
    ghost from_gives = { λ cause number. number ≡ cause_number cause };

    #[tactic(auto, unfolding(crate::specs::Cause::cause_number))]
    fn from(cause: Cause) -> u8 {
        match cause {
            Cause::Overrun => 1,
            Cause::NoVerb => 2,
            Cause::NoOpeningQuote => 3,
            Cause::NoClosingQuote => 4,
            Cause::NoEquals => 5,
        }
    }
}

// Why a line is malformed, and the byte where that shows.
#[derive(Clone, Copy)]
pub struct Malformed {
    pub cause: Cause,
    pub place: usize,
}
