// The verbs of the orders that call the link.
ghost use Rattle.std.specs.Prelude.{◌≡◌, Some};
ghost use Rattle.orders.specs.Verb.{is_tick, times_of, verb_name};

use std::fmt;

#[derive(Clone, Copy, Debug, PartialEq, Eq)]
pub enum LinkVerb {
    Send,
    Session,
    Byte,
    Bytes,
    Tick,
    Ticks,
    Restart,
}

impl LinkVerb {
    // Whether an order of this verb calls the tick.
    pub fn is_tick(self) -> bool
        ensures { result ≡ is_tick self }
    {
        matches!(self, LinkVerb::Tick | LinkVerb::Ticks)
    }

    // How often an order makes its call, where n is the number that it spells.
    pub fn times_of(self, n: u32) -> u32
        ensures { result ≡ times_of self n }
    {
        match self {
            LinkVerb::Ticks => n,
            _ => 1,
        }
    }
}

// The name under which a line tells the call. Each of many ticks is named as one.
impl fmt::Display for LinkVerb {
    ghost output = { λ verb. Some (verb_name verb) };

    fn fmt<W: fmt::Write>(&self, f: &mut fmt::Formatter<W>) -> fmt::Result {
        f.write_str(match self {
            LinkVerb::Send => "send",
            LinkVerb::Session => "session",
            LinkVerb::Byte => "byte",
            LinkVerb::Bytes => "bytes",
            LinkVerb::Tick | LinkVerb::Ticks => "tick",
            LinkVerb::Restart => "restart",
        })
    }
}
