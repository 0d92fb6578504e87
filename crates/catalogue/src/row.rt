// A row of the catalogue: what it says of a parameter, when two have the same indices, and which values it permits.
ghost use Rattle.std.specs.Prelude.{◌≡◌};
ghost use Rattle.catalogue.specs.Row.{RowFits, permitted, same_indices, start};

// The index groups of a row: a missing second group is not a second index 0.
#[derive(Clone, Copy)]
pub enum Indices {
    OneGroup(u64),
    TwoGroups(u64, u64),
}

#[derive(Clone, Copy)]
pub enum Kind {
    Level,
    Switch,
    Number,
    Word,
}

#[derive(Clone, Copy)]
pub struct Row {
    pub indices: Indices,
    pub kind: Kind,
    pub low: i64,
    pub high: i64,
    pub step: u64,
    pub settable: bool,
}

// Whether two index parts have as many groups and the same numbers.
pub fn same_indices(a: Indices, b: Indices) -> bool
    ensures { result ≡ same_indices a b }
{
    match a {
        Indices::OneGroup(x) => match b {
            Indices::OneGroup(y) => x == y,
            Indices::TwoGroups(_, _) => false,
        },
        Indices::TwoGroups(x, y) => match b {
            Indices::OneGroup(_) => false,
            Indices::TwoGroups(z, w) => {
                if x != z {
                    return false;
                }
                y == w
            }
        },
    }
}

// Whether the row permits the value v.
pub fn permits(row: Row, v: i64) -> bool
    requires { RowFits row }
    ensures { result ≡ permitted row v }
{
    let low = row.low;
    if v < low {
        return false;
    }
    if row.high < v {
        return false;
    }
    let distance = (v - low) as u64;
    distance % row.step == 0
}

// The value that a program starts the row with.
pub fn start_of(row: Row) -> i64
    requires { RowFits row }
    ensures { result ≡ start row }
{
    if permits(row, 0) {
        return 0;
    }
    row.low
}
