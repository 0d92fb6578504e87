// Numbers, levels, switches and routing words as text: read, measured, and written into a lent buffer.
#![tactic(auto)]

pub mod cut;
pub mod digit;
pub mod hex;
pub mod level;
pub mod number;
pub mod sign;
pub mod switch;
pub mod word;
pub mod written;
