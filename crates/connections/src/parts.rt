// The counts that divide the waiting bytes of all connections.
ghost use Rattle.std.specs.Prelude.{◌≡◌, ◌<◌, ◌≤◌, ◌^◌, length};
ghost use Rattle.connections.specs.Parts.{counts_right, part_start, total};

// Whether there are 32 counts, and they add up to `bytes`. They are taken from it one by one, so no sum is made that could wrap.
#[tactic(auto, using(crate::specs::Parts::Adding::taking))]
pub fn counts_right(counts: &[u64], bytes: usize) -> bool
    ensures { result ≡ counts_right counts.now bytes }
{
    if counts.len() != 32 {
        return false;
    }
    let mut left = bytes as u64;
    for &count in counts {
        if left < count {
            return false;
        }
        left -= count;
    }
    left == 0
}

// Where the bytes of connection `number` begin: after those of all connections before it, closed ones too.
#[tactic(auto, using(crate::specs::Parts::Adding::adding))]
pub fn part_start(counts: &[u64], number: usize) -> usize
    requires { (number ≤ length counts.now) × (total counts.now < 2 ^ 64) }
    ensures { result ≡ part_start counts.now number }
{
    let mut at = 0;
    for passed in 0..number {
        at += counts[passed] as usize;
    }
    at
}
