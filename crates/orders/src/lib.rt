// What an order of a script is made of: the end that it asks, the link's verbs, the bytes of an order, and the buffers that its call is lent.
#![tactic(auto)]

mod bytes;
mod ends;
mod lent;
mod verb;

pub use bytes::{behind, spelt_at};
pub use ends::{Pending, Store, call_at};
pub use lent::{fill, is_spilled, restore, within};
pub use verb::LinkVerb;
