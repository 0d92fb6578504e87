// The values of a mixer: whether each is permitted for its row.
ghost use Rattle.std.specs.Prelude.{◌≡◌, length};
ghost use Rattle.catalogue.specs.Mixer.{MixerSize, mixer_rows};
ghost use Rattle.values.specs.Permit.{rows_permit};

use catalogue::mixer::mixer_permits;

// Whether each value of a mixer is permitted for its row.
pub fn mixer_fits(inputs: u64, outputs: u64, values: &[i64]) -> bool
    requires mixer_size { MixerSize inputs outputs }
    requires values_len { length values.now ≡ length (mixer_rows inputs outputs) }
    ensures { result ≡ rows_permit (mixer_rows inputs outputs) values.now }
{
    for (j, v) in values.iter().enumerate() {
        if !mixer_permits(inputs, outputs, j as u64, *v) {
            return false;
        }
    }
    true
}
