// The sound body that begins some bytes.
ghost use Rattle.std.specs.Prelude.{◌≡◌};
ghost use Rattle.catalogue.specs.Mixer.{size_right};
ghost use Rattle.record.specs.Body.Begun.{mixer_length, sound_length};

use crate::field::field_sound;
use catalogue::is_fixed;

// Whether a mixer may have so many inputs, or outputs.
#[tactic(auto, using(crate::specs::Body::Rules::sizes))]
fn size_right(n: u8) -> bool
    ensures { result ≡ size_right n }
{
    1 <= n && n <= 32
}

// How long a mixer's body is that begins some bytes, where its size is sound, else 0.
fn mixer_length(rest: &[u8]) -> usize
    ensures { result ≡ mixer_length rest.now }
{
    if rest.len() < 34 {
        return 0;
    }
    if !size_right(rest[32]) {
        return 0;
    }
    if !size_right(rest[33]) {
        return 0;
    }
    34
}

// How long the sound body is that begins some bytes, or 0 where none does.
pub fn sound_length(kind: u8, rest: &[u8]) -> usize
    ensures { result ≡ sound_length kind rest.now }
{
    if rest.len() < 32 {
        return 0;
    }
    if !field_sound(&rest[..32]) {
        return 0;
    }
    if is_fixed(kind) {
        return 32;
    }
    if kind != 7 {
        return 0;
    }
    mixer_length(rest)
}
