// Reading and writing whole buffers, for the programs. What a file or a terminal gives or takes is outside the proof.
#![tactic(auto)]

pub mod reading;
pub mod writing;
