// The tally of section 9 (document 01): a byte, heard as the link hears it with no ticks, adds 1 to one count or to none.
#![tactic(auto)]

ghost use Rattle.std.specs.Prelude.{◌≡◌};
ghost use Rattle.tally.specs.Tally as spec;

use hearing::{End, Event, Heard, Hearing, Single};

// How many of each, in the order printed.
#[derive(Clone, Copy, Debug, Default, PartialEq, Eq)]
pub struct Counts {
    pub ack: u64,
    pub nak: u64,
    pub can: u64,
    pub frames: u64,
    pub badsum: u64,
    pub badlen: u64,
    pub reserved: u64,
    pub skipped: u64,
}

// Where the hearing stands, and what has been counted.
#[derive(Clone, Copy)]
pub struct Tally {
    pub hearing: Hearing,
    pub counts: Counts,
}

// One more. A caller may hand in any counts, so the largest number stays: that way every call is total, and the sum never wraps.
// A count gets at most 1 for each byte, so none that began at 0 meets this below 2^64 bytes, and section 9 ends at 2^24.
pub fn one_more(count: &mut u64)
    ensures { count.new ≡ spec.one_more count.old }
{
    *count = count.saturating_add(1);
}

impl Counts {
    // One more in the column of this event, if it has one.
    fn count_event(&mut self, event: Event)
        ensures { self.new ≡ spec.added (spec.column event) self.old }
    {
        match event {
            Event::Alone(Single::Ack) => one_more(&mut self.ack),
            Event::Alone(Single::Nak) => one_more(&mut self.nak),
            Event::Alone(Single::Can) => one_more(&mut self.can),
            Event::Ended(End::Request { .. } | End::Response { .. }) => one_more(&mut self.frames),
            Event::Ended(End::BadSum) => one_more(&mut self.badsum),
            Event::Ended(End::BadLength) => one_more(&mut self.badlen),
            Event::Ended(End::Reserved) => one_more(&mut self.reserved),
            Event::Skipped => one_more(&mut self.skipped),
            _ => {}
        }
    }
}

impl Tally {
    // Before the first byte.
    pub fn fresh() -> Tally
        ensures { result ≡ spec.fresh }
    {
        Tally {
            hearing: Hearing::Hunting,
            counts: Counts::default(),
        }
    }

    // One byte more.
    pub fn count_byte(&mut self, b: u8)
        ensures { self.new ≡ spec.count_byte b self.old }
    {
        let Heard { hearing, event } = self.hearing.hear_byte(b);
        self.hearing = hearing;
        self.counts.count_event(event);
    }

    // How many bytes of an unfinished frame have come.
    pub fn open_bytes(&self) -> u64
        ensures { result ≡ spec.open_bytes self.now.hearing }
    {
        match self.hearing {
            Hearing::Hunting => 0,
            Hearing::Head { .. } => 1,
            Hearing::Body(p) => p.at as u64 + 2,
        }
    }
}
