// The only writer of lent buffers (document 01, sections 3 and 7).
#![tactic(auto)]

mod writing;

pub use writing::{put_line, put_reply, put_up};
