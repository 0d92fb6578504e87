// Index groups, as a line names a parameter by them, and the part of it that they name.

// A group: a number, or a pair of numbers.
#[derive(Clone, Copy)]
pub enum Group {
    Single(u64),
    Pair(u64, u64),
}

// One group, or two.
#[derive(Clone, Copy)]
pub enum Groups {
    OneGroup(Group),
    TwoGroups(Group, Group),
}

// What a line names of a parameter: all of it, or one output of a routing word.
#[derive(Clone, Copy)]
pub enum Part {
    Whole,
    Output(u64),
}
