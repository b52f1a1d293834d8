// One step of the link, on numbers (document 01, sections 3 to 6): the checks of a call, and what it decides.
#![tactic(auto)]

mod checks;
mod deciding;
mod numbers;

pub use checks::{lacks_room, room, send_checks, session_checks};
pub use deciding::{Outcome, decide, decide_tick, either, opening, restarting};
pub use numbers::Core;
