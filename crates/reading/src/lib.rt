// Reading a data frame (document 01, sections 2 and 3). No state.
#![tactic(auto)]

mod reader;

pub use reader::{Parts, read};
