// A report in words: each part as a line of output names it, with the value of its case.
ghost use Rattle.std.specs.Prelude.{Some};
ghost use Rattle.report.specs.Texts.{reception_text, sending_text, session_text, reset_text};

use crate::{Reception, Reset, Sending, Session};
use std::fmt;
use units::Millis;

impl fmt::Display for Reception {
    ghost output = { λ part. Some (reception_text part) };

    fn fmt<W: fmt::Write>(&self, f: &mut fmt::Formatter<W>) -> fmt::Result {
        f.write_str(match self {
            Reception::Nothing => "nothing",
            Reception::Skipped => "skipped",
            Reception::BadLength => "badlen",
            Reception::Frame => "frame",
            Reception::Reserved => "reserved",
            Reception::BadSum => "badsum",
            Reception::Abort => "abort",
            Reception::StrayResponse => "strayresponse",
            Reception::Cancelled => "cancelled",
        })
    }
}

impl fmt::Display for Sending {
    ghost output = { λ part. Some (sending_text part) };

    fn fmt<W: fmt::Write>(&self, f: &mut fmt::Formatter<W>) -> fmt::Result {
        match *self {
            Sending::Nothing => write!(f, "nothing"),
            Sending::Stray => write!(f, "stray"),
            Sending::Due => write!(f, "due"),
            Sending::Copy(n) => write!(f, "copy:{n}"),
            Sending::BackingOff(Millis(n)) => write!(f, "backoff:{n}"),
            Sending::Acknowledged(n) => write!(f, "acked:{n}"),
            Sending::Failed(n) => write!(f, "failed:{n}"),
            Sending::Abandoned => write!(f, "abandoned"),
        }
    }
}

impl fmt::Display for Session {
    ghost output = { λ part. Some (session_text part) };

    fn fmt<W: fmt::Write>(&self, f: &mut fmt::Formatter<W>) -> fmt::Result {
        match *self {
            Session::Nothing => write!(f, "nothing"),
            Session::Waiting => write!(f, "waiting"),
            Session::Response(n) => write!(f, "response:{n}"),
            Session::NoResponse(n) => write!(f, "noresponse:{n}"),
            Session::NotSent(n) => write!(f, "notsent:{n}"),
            Session::Abandoned => write!(f, "abandoned"),
        }
    }
}

impl fmt::Display for Reset {
    ghost output = { λ part. Some (reset_text part) };

    fn fmt<W: fmt::Write>(&self, f: &mut fmt::Formatter<W>) -> fmt::Result {
        f.write_str(match self {
            Reset::Nothing => "none",
            Reset::Sums => "sums",
            Reset::Delivery => "delivery",
        })
    }
}
