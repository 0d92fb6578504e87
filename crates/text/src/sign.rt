// Signs: a signed number from its sign and its size, and the size of one.
ghost use Rattle.std.specs.Prelude.{◌≡◌, ◌<◌, nat_abs};
ghost use Rattle.text.specs.Level.{signed};

// `n` with a minus sign or without.
pub(crate) fn with_sign(minus: bool, n: u64) -> i64
    requires { n < 1000 }
    ensures { result ≡ signed minus n }
{
    let v = n as i64;
    if minus {
        return -v;
    }
    v
}

// How far `v` is from 0, also where `v` is the lowest number.
pub fn magnitude(v: i64) -> u64
    ensures { result ≡ nat_abs v }
{
    if v < 0 {
        return (-(v + 1)) as u64 + 1;
    }
    v as u64
}
