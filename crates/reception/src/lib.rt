// Reception (document 01, section 4): what is said of an event, answered and handed up, and the run of bad sums. The crate
// `hearing` says which event a byte or a tick is.
#![tactic(auto)]

mod said;
mod sums;

pub use said::{Awaited, Said, is_awaited, said_as_host, said_on};
pub use sums::{Sums, sums_on};
