// Hex digits as bytes, capitals alone.
ghost use Rattle.std.specs.Prelude.{◌≡◌, true, ◌<◌};
ghost use Rattle.text.specs.Hex.{hex_digit, hex_value, is_hex_digit};

// A byte from `0` to `9` or from `A` to `F`.
#[tactic(auto, unfolding(crate::specs::Hex::is_hex_digit, crate::specs::Digits::is_digit))]
pub(crate) fn is_hex_digit(b: u8) -> bool
    ensures { result ≡ is_hex_digit b }
{
    matches!(b, b'0'..=b'9' | b'A'..=b'F')
}

// The number that a hex digit says.
pub(crate) fn hex_value(b: u8) -> u64
    requires { is_hex_digit b ≡ true }
    ensures { result ≡ hex_value b }
{
    if b <= b'9' {
        return (b - b'0') as u64;
    }
    (b - b'A') as u64 + 10
}

// The hex digit that says `d`.
pub(crate) fn hex_digit(d: u64) -> u8
    requires { d < 16 }
    ensures { result ≡ hex_digit d }
{
    if d < 10 {
        return b'0' + d as u8;
    }
    b'A' + (d - 10) as u8
}
