// Sending and the session (document 01, sections 5 and 6): what the open send or session does on an event.
#![tactic(auto)]

mod events;

pub use events::{awaited_by, awaits, on_event, on_restart};
