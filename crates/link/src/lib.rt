// The host end of the link and the stand-in for its other end (document 01, sections 3 to 7): bytes and ticks go in, bytes and reports come out.
#![tactic(auto)]

mod calls;
mod emit;
mod link;
mod parts;

pub use calls::Run;
pub use link::{Link, Timings};
pub use parts::Parts;
