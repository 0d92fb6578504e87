// What index groups name in a module: a parameter, and which part of it.
ghost use Rattle.std.specs.Prelude.{true, ◌≡◌};
ghost use Rattle.catalogue.specs.Catalogue.{fixed, known_layout};
ghost use Rattle.values.specs.Control.{crosspoint, is_word, named, whole};
ghost use Rattle.values.specs.Parameters.{parameters_of, with_indices};
ghost use Rattle.values.specs.Control.Seeking.{part_found, sought_by, sought_pair};

use crate::parameter::{Parameter, mixer_parameter};
use catalogue::groups::{Group, Groups, Part};
use catalogue::listed::listed_row;
use catalogue::row::{Indices, Kind, same_indices};
use catalogue::{is_fixed, row_count};
use room::table::Module;

// The whole of a parameter.
fn whole(found: Option<Parameter>) -> Option<(Parameter, Part)>
    ensures { result ≡ whole found }
{
    Some((found?, Part::Whole))
}

// Whether a row is a routing word's.
fn is_word(kind: Kind) -> bool
    ensures { result ≡ is_word kind }
{
    matches!(kind, Kind::Word)
}

// One of so many outputs of a routing word.
fn crosspoint(outputs: u64, output: u64, found: Option<Parameter>) -> Option<(Parameter, Part)>
    ensures { result ≡ crosspoint outputs output found }
{
    let p = found?;
    if !is_word(p.row.kind) || output < 1 || outputs < output {
        return None;
    }
    Some((p, Part::Output(output)))
}

// The part of what was found.
fn part_found(outputs: u64, part: Part, found: Option<Parameter>) -> Option<(Parameter, Part)>
    ensures { result ≡ part_found outputs part found }
{
    match part {
        Part::Whole => whole(found),
        Part::Output(o) => crosspoint(outputs, o, found),
    }
}

// What two groups seek of which the second is a pair.
fn sought_pair(first: u64, input: u64, output: u64) -> Option<(Indices, Part)>
    ensures { result ≡ sought_pair first input output }
{
    if first == 4 {
        return Some((Indices::TwoGroups(3, input), Part::Output(output)));
    }
    None
}

// What groups seek.
fn sought_by(groups: Groups) -> Option<(Indices, Part)>
    ensures { result ≡ sought_by groups }
{
    match groups {
        Groups::OneGroup(g) => match g {
            Group::Single(a) => Some((Indices::OneGroup(a), Part::Whole)),
            Group::Pair(_, _) => None,
        },
        Groups::TwoGroups(g, h) => match g {
            Group::Single(a) => match h {
                Group::Single(b) => Some((Indices::TwoGroups(a, b), Part::Whole)),
                Group::Pair(i, o) => sought_pair(a, i, o),
            },
            Group::Pair(_, _) => None,
        },
    }
}

// The whole of the parameter whose row has the indices, in a module that is no mixer.
fn listed_whole(m: Module, indices: Indices) -> Option<(Parameter, Part)>
    requires { (known_layout m.layout ≡ true) × (fixed m.layout.kind ≡ true) }
    ensures { result ≡ whole (with_indices indices (parameters_of m)) }
{
    let layout = m.layout;
    let count = row_count(layout);
    for j in 0..count {
        let row = listed_row(layout, j);
        let have = row.indices;
        if same_indices(have, indices) {
            let found = Parameter {
                owner: m,
                number: j,
                row,
            };
            return Some((found, Part::Whole));
        }
    }
    None
}

// What is sought in a module that is no mixer: none of its rows has outputs.
fn listed_part(m: Module, indices: Indices, part: Part) -> Option<(Parameter, Part)>
    requires { (known_layout m.layout ≡ true) × (fixed m.layout.kind ≡ true) }
    ensures { result ≡ part_found m.layout.outputs part (with_indices indices (parameters_of m)) }
{
    match part {
        Part::Whole => listed_whole(m, indices),
        Part::Output(_) => None,
    }
}

// What index groups name in a module, and which part of it: in a mixer the row's number is computed, in another module it is sought.
pub fn named(m: Module, groups: Groups) -> Option<(Parameter, Part)>
    requires { known_layout m.layout ≡ true }
    ensures { result ≡ named m groups }
{
    let (indices, part) = sought_by(groups)?;
    let layout = m.layout;
    if is_fixed(layout.kind) {
        return listed_part(m, indices, part);
    }
    part_found(layout.outputs as u64, part, mixer_parameter(m, indices))
}
