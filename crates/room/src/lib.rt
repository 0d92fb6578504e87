// The module table of a room, and the one module that bears a label.
#![tactic(auto)]

pub mod label;
pub mod modules;
pub mod refusal;
pub mod table;
