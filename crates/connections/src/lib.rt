// Thirty-two connections over one room: whose turn it is, and which of the waiting bytes are its own.
#![tactic(auto)]

pub mod by_value;
pub mod connection;
pub mod number;
pub mod parts;
pub mod round;
pub mod serving;
pub mod survey;
pub mod turn;
pub mod turning;
