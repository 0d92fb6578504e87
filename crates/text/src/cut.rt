// Cutting at a byte.
ghost use Rattle.std.specs.Prelude.{◌≡◌};
ghost use Rattle.text.specs.Cut.{index_of};

// The place of the first `b` in `s`, or the length of `s` where there is none.
#[tactic(auto, using(crate::specs::Cut::Laws::searching))]
pub fn find(s: &[u8], b: u8) -> usize
    ensures { result ≡ index_of b s.now }
{
    for (i, x) in s.iter().enumerate() {
        if *x == b {
            return i;
        }
    }
    s.len()
}
