// A record of the module table: its kind, and its body, which begins with the field of a label.
#![tactic(auto)]

pub mod begun;
pub mod body;
pub mod field;
pub mod layout;
