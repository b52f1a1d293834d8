// Hearing (document 01, section 4): a byte or a tick becomes an event. It knows nothing of sending; `tally` and `counting` use it alone.
#![tactic(auto)]

mod hearing;

pub use hearing::{End, Event, Heard, Hearing, Partial, Single, hunted, keep, measured};
