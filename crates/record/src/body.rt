// The body of a record: its length, by kind.
ghost use Rattle.std.specs.Prelude.{true, ◌≡◌};
ghost use Rattle.catalogue.specs.Catalogue.{known};
ghost use Rattle.record.specs.Body.{body_length};

use catalogue::is_fixed;

// How long a kind's body is.
pub fn body_length(kind: u8) -> usize
    requires { known kind ≡ true }
    ensures { result ≡ body_length kind }
{
    if is_fixed(kind) {
        return 32;
    }
    34
}
