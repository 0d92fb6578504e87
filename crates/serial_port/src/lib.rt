// The port: bytes collected into lines, and one reply to each; playing a sequence; serving a stream.
#![tactic(auto)]

pub mod port;
pub mod refusal;
pub mod stream;
