// The report (document 01, section 7): its types. One record of four parts, each a case with its own data, and beside them the
// numbers of bytes. What each part says is decided where it happens, in `reception`, `job`, `sending` and `step`.
// `Nothing` is a case of its own in each list of section 7, told by its place there: as `None` of an `Option` it would be no plainer.
// So it is of `Reset` too, though `either` of `step` is then `or` by hand: `report_told` takes the place of any of them by `as`.
#![tactic(auto)]

mod text;
mod told;

pub use told::report_told;
use units::Millis;

#[derive(Clone, Copy, Debug, PartialEq, Eq)]
pub enum Reception {
    Nothing,
    Skipped,
    BadLength,
    Frame,
    Reserved,
    BadSum,
    Abort,
    StrayResponse,
    // Of a stand-in, in place of frame and stray response.
    Cancelled,
}

#[derive(Clone, Copy, Debug, PartialEq, Eq)]
pub enum Sending {
    Nothing,
    Stray,
    Due,
    // The number of the copy put out.
    Copy(u8),
    BackingOff(Millis),
    // With the number of copies.
    Acknowledged(u8),
    Failed(u8),
    Abandoned,
}

#[derive(Clone, Copy, Debug, PartialEq, Eq)]
pub enum Session {
    Nothing,
    Waiting,
    // The verdicts, with the number of copies.
    Response(u8),
    NoResponse(u8),
    NotSent(u8),
    Abandoned,
}

#[derive(Clone, Copy, Debug, PartialEq, Eq)]
pub enum Reset {
    Nothing,
    Sums,
    Delivery,
}

#[derive(Clone, Copy, Debug, PartialEq, Eq)]
pub struct Report {
    pub reception: Reception,
    pub sending: Sending,
    pub session: Session,
    pub reset: Reset,
    // The numbers of bytes for the line and handed up.
    pub line: u16,
    pub up: u16,
}
