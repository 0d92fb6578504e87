// The restore list, measured and written.
#![tactic(auto)]

pub mod list;
pub mod listed_measuring;
pub mod listed_writing;
pub mod measure;
pub mod module_measuring;
pub mod module_writing;
