// What command bodies share (document 01, section 8): Type and Command at the front, masks, and how a body is written. A body is Type, Command, parameters, as handed up.
#![tactic(auto)]

mod mask;
mod response;
mod written;

pub use mask::is_marked;
pub use response::is_response;
pub use written::{Layout, write_body, write_parts};
