// Why a call is refused, and the number of each reason.
ghost use Rattle.std.specs.Prelude.{◌≡◌};
ghost use Rattle.room.specs.Refusal.{number_of, refusal_number};

// Each reason, in the order of their numbers.
#[derive(Clone, Copy, Debug, PartialEq, Eq)]
pub enum Refusal {
    // The table is not sound.
    Table,
    // The list has not one permitted value for each parameter.
    Values,
    // The reply buffer has too few bytes.
    ReplyBuffer,
    // A port claims more bytes than it may hold.
    HeldBytes,
    // The selection does not mark modules of the table.
    Selection,
    // The wanted list has not one permitted value for each parameter of the modules marked.
    Wanted,
    // No lines lead to the wanted values.
    OutOfReach,
    // The space for a list has fewer bytes than the list.
    NoRoom,
    // There is no such parameter, or it may not be changed to the value.
    NoSuchChange,
    // The row, the counts or the number of a connection is wrong, or the connection is open or closed already.
    Connections,
}

impl From<Refusal> for u8 {
    ghost from_gives = { λ refusal number. number ≡ refusal_number refusal };

    fn from(refusal: Refusal) -> u8 {
        match refusal {
            Refusal::Table => 1,
            Refusal::Values => 2,
            Refusal::ReplyBuffer => 3,
            Refusal::HeldBytes => 4,
            Refusal::Selection => 5,
            Refusal::Wanted => 6,
            Refusal::OutOfReach => 7,
            Refusal::NoRoom => 8,
            Refusal::NoSuchChange => 9,
            Refusal::Connections => 10,
        }
    }
}

// The number that a caller in C gets: 0 for `Ok`, and else the refusal's.
pub fn number_of<T: Copy>(outcome: Result<T, Refusal>) -> u8
    ensures { result ≡ number_of outcome }
{
    match outcome {
        Ok(_) => 0,
        Err(refusal) => refusal.into(),
    }
}
