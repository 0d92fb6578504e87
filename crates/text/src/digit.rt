// Decimal digits as bytes.
ghost use Rattle.std.specs.Prelude.{◌≡◌, true, ◌-◌};
ghost use Rattle.text.specs.Digits.{is_digit};

// A byte from `0` to `9`.
#[tactic(auto, unfolding(crate::specs::Digits::is_digit))]
pub(crate) fn is_digit(b: u8) -> bool
    ensures { result ≡ is_digit b }
{
    b.is_ascii_digit()
}

// The number that a digit says.
pub(crate) fn digit_of(b: u8) -> u64
    requires { is_digit b ≡ true }
    ensures { result ≡ b - 48 }
{
    (b - b'0') as u64
}
