// What other languages call: functions on numbers and byte slices under plain C names, and a link that is fed with whole inputs. The
// bench links them.
#![tactic(auto)]

mod counts;
mod feeding;
mod frames;
mod numbers;

pub use feeding::{Way, bytes, runs, ticks};
pub use numbers::{Tale, answer_number, mix, tale_of};
