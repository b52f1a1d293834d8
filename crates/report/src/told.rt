// A report in numbers: each part by its place in section 7's list, from 0, and its value, 0 where the case has none.
ghost use Rattle.std.specs.Prelude.{◌≡◌};
ghost use Rattle.report.specs.Told.{sending_case, sending_value, session_case, session_value, report_told};

use crate::{Report, Sending, Session};

// Here and in `Session` each case has its place in a `match`: a case that holds data can't be cast by `as`.
impl Sending {
    fn told(self) -> (u64, u64)
        ensures { (result.0 ≡ sending_case self) × (result.1 ≡ sending_value self) }
    {
        match self {
            Sending::Nothing => (0, 0),
            Sending::Stray => (1, 0),
            Sending::Due => (2, 0),
            Sending::Copy(n) => (3, u64::from(n)),
            Sending::BackingOff(ticks) => (4, u64::from(ticks.0)),
            Sending::Acknowledged(n) => (5, u64::from(n)),
            Sending::Failed(n) => (6, u64::from(n)),
            Sending::Abandoned => (7, 0),
        }
    }
}

impl Session {
    fn told(self) -> (u64, u64)
        ensures { (result.0 ≡ session_case self) × (result.1 ≡ session_value self) }
    {
        match self {
            Session::Nothing => (0, 0),
            Session::Waiting => (1, 0),
            Session::Response(n) => (2, u64::from(n)),
            Session::NoResponse(n) => (3, u64::from(n)),
            Session::NotSent(n) => (4, u64::from(n)),
            Session::Abandoned => (5, 0),
        }
    }
}

// The four parts and the two numbers of bytes, in the order of the report.
// A function and no `From`: eight numbers don't say what they tell, and its name does. An array, for C mixes them in this order (`exports`).
pub fn report_told(report: Report) -> [u64; 8]
    ensures { result ≡ report_told report }
{
    let sending = report.sending.told();
    let session = report.session.told();
    [
        report.reception as u64,
        sending.0,
        sending.1,
        session.0,
        session.1,
        report.reset as u64,
        u64::from(report.line),
        u64::from(report.up),
    ]
}
