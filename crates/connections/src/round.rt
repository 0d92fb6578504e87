// Whose turn it is.
ghost use Rattle.std.specs.Prelude.{◌≡◌, ◌<◌, ◌≤◌, length};
ghost use Rattle.connections.specs.Round.{last_after, next, waits_by};

// Whether a connection waits, by which are open and by the counts.
#[tactic(auto, using(crate::proofs::Laws::Round::Seeking::seeking))]
fn waits(flags: &[bool; 32], counts: &[u64], number: usize) -> bool
    requires { (number < 32) × (length counts.now ≡ 32) }
    ensures { result ≡ waits_by flags.now counts.now number }
{
    flags[number] && 0 < counts[number]
}

// The next connection that waits. The round begins after the last served, goes up to 31 and on from 0.
#[tactic(auto, using(crate::proofs::Laws::Round::Seeking::seeking))]
pub fn next_waiting(flags: &[bool; 32], counts: &[u64], last: usize) -> Option<usize>
    requires { (last ≤ 31) × (length counts.now ≡ 32) }
    ensures { result ≡ next last (waits_by flags.now counts.now) }
{
    for passed in 0..32 {
        let number = (last + 1 + passed) % 32;
        if waits(flags, counts, number) {
            return Some(number);
        }
    }
    None
}

// The last served as it stands after a turn.
#[tactic(auto, using(crate::proofs::Laws::Round::Seeking::lasting))]
pub fn last_after(last: usize, served: Option<usize>) -> usize
    ensures { result ≡ last_after last served }
{
    match served {
        None => last,
        Some(one) => one,
    }
}
