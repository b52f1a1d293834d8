// What linkplay does without a link: the lines of a script are read by the table of verbs, the calls on frames and on command bodies carried out, and lines of output put together.
#![tactic(auto)]

mod calls;
mod order;
mod output;
mod table;
mod word;

pub use order::{Malformed, Numbers, Order, SPELT, order_of};
pub use output::Output;
pub use table::{Call, Verb};
pub use word::{MOST, Word};
