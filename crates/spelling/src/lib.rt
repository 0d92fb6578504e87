// How replies and set lines are spelled.
#![tactic(auto)]

pub mod acknowledgement;
pub mod indices;
pub mod line;
pub mod name;
pub mod reply;
pub mod set_line;
pub mod value;
