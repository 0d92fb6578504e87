// The parts of a line: its shape, its index part, its value text.
#![tactic(auto)]

pub mod cause;
pub mod index_group;
pub mod index_part;
pub mod shape;
pub mod value_text;
