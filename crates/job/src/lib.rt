// The job (document 01, sections 5 and 6): the open send or session, its copies and its time.
#![tactic(auto)]

mod job;
mod ticks;
mod wire;

pub use job::{Act, Job, lose, start};
pub use ticks::{on_abort, on_tick};
