// A run of bytes (document 01, sections 4 and 7), heard up to its first news. It knows nothing of sending.
#![tactic(auto)]

mod run;

pub use run::{Reach, hear_run};
