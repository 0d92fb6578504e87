// What a line means in a room, and the answer to it.
#![tactic(auto)]

pub mod answer;
pub mod meaning;
