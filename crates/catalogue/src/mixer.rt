// A row of a Standard Mixer, computed from its size; and the number of the row that has given indices.
ghost use Rattle.std.specs.Prelude.{◌≡◌, ◌<◌, ◌≤◌};
ghost use Rattle.catalogue.specs.Mixer.{MixerSize, channel_row, fader, mixer_count, mixer_number, mixer_row, mixer_rows, mute, route_row, row_number, within};
ghost use Rattle.catalogue.specs.Row.{permitted};
ghost use Rattle.catalogue.specs.declared.row.Indices.TheVariants.{TwoGroups};

use crate::row::{Indices, Kind, Row, permits};
use text::word::place_of;

// A level of the inputs or of the outputs.
fn level_row(group: u64, j: u64) -> Row
    ensures { result ≡ fader group j }
{
    Row {
        indices: Indices::TwoGroups(group, j),
        kind: Kind::Level,
        low: -605,
        high: 120,
        step: 5,
        settable: true,
    }
}

fn mute_row(group: u64, j: u64) -> Row
    ensures { result ≡ mute group j }
{
    Row {
        indices: Indices::TwoGroups(group, j),
        kind: Kind::Switch,
        low: 0,
        high: 1,
        step: 1,
        settable: true,
    }
}

// Row k of the inputs or of the outputs.
fn channel_row(group: u64, k: u64) -> Row
    requires { k < 160 }
    ensures { result ≡ channel_row group k }
{
    if k % 2 == 0 {
        return level_row(group, k + 1);
    }
    mute_row(group, k + 1)
}

// The routing word of input k.
fn route_row(outputs: u64, k: u64) -> Row
    requires le_outputs { 1 ≤ outputs }
    requires outputs_bound { outputs ≤ 32 }
    requires k_bound { k < 160 }
    ensures { result ≡ route_row outputs k }
{
    let step = place_of(outputs);
    let every = 4294967296 - step;
    Row {
        indices: Indices::TwoGroups(3, k + 1),
        kind: Kind::Word,
        low: 0,
        high: every as i64,
        step: step,
        settable: true,
    }
}

// Row k of a mixer.
pub fn mixer_row(inputs: u64, outputs: u64, k: u64) -> Row
    requires mixer_size { MixerSize inputs outputs }
    requires k_bound { k < mixer_count inputs outputs }
    ensures { result ≡ mixer_row inputs outputs k }
{
    if k < 2 * inputs {
        return channel_row(1, k);
    }
    let behind = k - 2 * inputs;
    if behind < 2 * outputs {
        return channel_row(2, behind);
    }
    route_row(outputs, behind - 2 * outputs)
}

// Index j of a group of `size` rows that begins behind `first` rows, or `none`.
fn within(first: u64, size: u64, none: u64, j: u64) -> u64
    requires { (first ≤ 160) × (size ≤ 160) }
    ensures { result ≡ within first size none j }
{
    if j < 1 {
        return none;
    }
    if size < j {
        return none;
    }
    first + (j - 1)
}

// The number of the row with two index groups.
fn group_number(inputs: u64, outputs: u64, a: u64, j: u64) -> u64
    requires { MixerSize inputs outputs }
    ensures { result ≡ mixer_number inputs outputs (TwoGroups a j) }
{
    let count = 3 * inputs + 2 * outputs;
    match a {
        1 => within(0, 2 * inputs, count, j),
        2 => within(2 * inputs, 2 * outputs, count, j),
        3 => within(2 * inputs + 2 * outputs, inputs, count, j),
        _ => count,
    }
}

// The number of the row of a mixer that has the indices; as many as there are rows where none has them.
pub fn mixer_number(inputs: u64, outputs: u64, indices: Indices) -> u64
    requires { MixerSize inputs outputs }
    ensures { result ≡ row_number indices (mixer_rows inputs outputs) }
{
    match indices {
        Indices::OneGroup(_) => 3 * inputs + 2 * outputs,
        Indices::TwoGroups(a, j) => group_number(inputs, outputs, a, j),
    }
}

// Whether row k of the inputs or of the outputs permits the value v.
fn channel_permits(k: u64, v: i64) -> bool
    ensures { result ≡ permitted (channel_row 1 k) v }
{
    if k % 2 == 0 {
        return permits(level_row(1, 1), v);
    }
    permits(mute_row(1, 1), v)
}

// Whether row k of a mixer permits the value v; only the row's bounds and its step are made.
pub fn mixer_permits(inputs: u64, outputs: u64, k: u64, v: i64) -> bool
    requires { MixerSize inputs outputs }
    ensures { result ≡ permitted (mixer_row inputs outputs k) v }
{
    if k < 2 * inputs + 2 * outputs {
        return channel_permits(k, v);
    }
    permits(route_row(outputs, 0), v)
}
