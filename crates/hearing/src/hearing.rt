// A byte or a tick is heard (section 4).
ghost use Rattle.std.specs.Prelude.{◌≡◌, ◌+◌, ◌<◌, eqb, ltb, set};
ghost use Rattle.refusals.specs.Pick.{pick};
ghost use Rattle.hearing.specs.Hearing as spec;
ghost use Rattle.hearing.specs.declared.hearing.Hearing.TheVariants.{Hunting};

use frame::{ACK, CAN, MAX_BODY, MIN_LENGTH, NAK, REQ, RES, SEED, START};
use units::Millis;

// A half-received frame behind its Length, in numbers; its bytes are kept in the link's body.
#[derive(Clone, Copy, Debug, PartialEq, Eq)]
pub struct Partial {
    pub clock: u16,
    // Body bytes in all (Length - 1), and how many have come.
    pub size: u8,
    pub at: u8,
    // What the checksum has to be, as far as the bytes have come.
    pub sum: u8,
    // Type as it came, which may be any byte: a frame of another than 00 and 01 is heard to its end, and is `Reserved`.
    pub kind: u8,
    pub command: u8,
}

#[derive(Clone, Copy, Debug, PartialEq, Eq)]
pub enum Hearing {
    Hunting,
    // 01 has come, Length is next.
    Head { clock: u16 },
    Body(Partial),
}

impl Hearing {
    // How long a frame may take, from its first byte.
    pub const FRAME_TIME: Millis = Millis(1500);
}

#[derive(Clone, Copy, Debug, PartialEq, Eq)]
pub enum Single {
    Ack,
    Nak,
    Can,
}

impl Single {
    // The single byte that b is, if it is one. (No `TryFrom`: a byte that is none is heard as skipped, and there is no error to name.)
    #[inline]
    pub fn of(b: u8) -> Option<Self>
        ensures { result ≡ spec.single_of b }
    {
        match b {
            ACK => Some(Single::Ack),
            NAK => Some(Single::Nak),
            CAN => Some(Single::Can),
            _ => None,
        }
    }
}

// The byte that it is on the line.
impl From<Single> for u8 {
    ghost from_gives = { λ s b. b ≡ spec.byte_of s };

    #[inline]
    fn from(single: Single) -> u8 {
        match single {
            Single::Ack => ACK,
            Single::Nak => NAK,
            Single::Can => CAN,
        }
    }
}

// How a frame ends at a byte.
#[derive(Clone, Copy, Debug, PartialEq, Eq)]
pub enum End {
    BadLength,
    BadSum,
    Reserved,
    // Right checksum, Type 00 or 01, with the number of body bytes.
    Request { size: u8 },
    Response { size: u8, command: u8 },
}

// What a byte or a tick was.
#[derive(Clone, Copy, Debug, PartialEq, Eq)]
pub enum Event {
    // The byte 01 or a Length: inside a frame, nothing to keep.
    Inside,
    // A body byte, and its place.
    Kept { at: u8 },
    Skipped,
    Alone(Single),
    Ended(End),
    // A tick that ends nothing: while hunting, or inside a frame.
    TickHunting,
    TickInside,
    Aborted,
}

#[derive(Clone, Copy, Debug, PartialEq, Eq)]
pub struct Heard {
    pub hearing: Hearing,
    pub event: Event,
}

impl Heard {
    // An event behind which the link hunts.
    #[inline]
    fn hunting(event: Event) -> Self
        ensures { result ≡ spec.heard Hunting event }
    {
        Heard {
            hearing: Hearing::Hunting,
            event,
        }
    }
}

// While hunting: 01 begins a frame; 06, 15, 18 go to the sender; other bytes are skipped.
#[inline]
pub fn hunted(b: u8) -> Heard
    ensures { result ≡ spec.hunted b }
{
    if b == START {
        return Heard {
            hearing: Hearing::Head { clock: 0 },
            event: Event::Inside,
        };
    }
    match Single::of(b) {
        Some(single) => Heard::hunting(Event::Alone(single)),
        None => Heard::hunting(Event::Skipped),
    }
}

// Length: below 3 it is bad, else Length - 1 body bytes follow.
#[inline]
pub fn measured(clock: u16, b: u8) -> Heard
    ensures { result ≡ spec.measured clock b }
{
    if b < MIN_LENGTH {
        return Heard::hunting(Event::Ended(End::BadLength));
    }
    Heard {
        hearing: Hearing::Body(Partial {
            clock,
            size: b - 1,
            at: 0,
            sum: SEED ^ b,
            kind: 0,
            command: 0,
        }),
        event: Event::Inside,
    }
}

// The byte that stands at its place, or what was there. (`picked` of the crate `run` asks it of a slice. By that, one byte would be made a
// slice first: no plainer.)
#[inline]
fn placed(at: u8, place: u8, b: u8, old: u8) -> u8
    ensures { result ≡ pick (eqb at place) b old }
{
    if at == place { b } else { old }
}

impl Partial {
    // One more body byte. The clock stays: only ticks move it.
    #[inline]
    fn more(self, b: u8) -> Self
        requires { self.at < 255 }
        ensures { result ≡ spec.more self b }
    {
        Partial {
            at: self.at + 1,
            sum: self.sum ^ b,
            kind: placed(self.at, 0, b, self.kind),
            command: placed(self.at, 1, b, self.command),
            ..self
        }
    }

    // A right checksum, by the frame's Type.
    #[inline]
    fn ended(self) -> End
        ensures { result ≡ spec.ended self }
    {
        match self.kind {
            REQ => End::Request { size: self.size },
            RES => End::Response {
                size: self.size,
                command: self.command,
            },
            _ => End::Reserved,
        }
    }

    // A body byte, or the checksum behind the last. No byte has a special meaning here.
    #[inline]
    pub fn followed(self, b: u8) -> Heard
        ensures { result ≡ spec.followed self b }
    {
        if self.at < self.size {
            return Heard {
                hearing: Hearing::Body(self.more(b)),
                event: Event::Kept { at: self.at },
            };
        }
        let end = if b == self.sum {
            self.ended()
        } else {
            End::BadSum
        };
        Heard::hunting(Event::Ended(end))
    }
}

// Whether a frame whose clock stands there goes on behind one more tick: the 1,501st aborts it. (The clock is a
// number of ticks in a u16: as `Millis` it would be made one for this test alone, no plainer.)
#[inline]
fn has_time(clock: u16) -> bool
    ensures { result ≡ ltb (clock + 1) 1501 }
{
    (clock as u32) < Hearing::FRAME_TIME.0
}

impl Hearing {
    // One received byte.
    #[inline]
    pub fn hear_byte(self, b: u8) -> Heard
        ensures { result ≡ spec.hear_byte b self }
    {
        match self {
            Hearing::Hunting => hunted(b),
            Hearing::Head { clock } => measured(clock, b),
            Hearing::Body(p) => p.followed(b),
        }
    }

    // One tick: inside a frame it adds 1 to the clock.
    #[inline]
    pub fn hear_tick(self) -> Heard
        ensures { result ≡ spec.hear_tick self }
    {
        match self {
            Hearing::Hunting => Heard::hunting(Event::TickHunting),
            Hearing::Head { clock } if has_time(clock) => Heard {
                hearing: Hearing::Head { clock: clock + 1 },
                event: Event::TickInside,
            },
            Hearing::Body(p) if has_time(p.clock) => Heard {
                hearing: Hearing::Body(Partial {
                    clock: p.clock + 1,
                    ..p
                }),
                event: Event::TickInside,
            },
            _ => Heard::hunting(Event::Aborted),
        }
    }

    #[inline]
    pub fn is_hunting(self) -> bool
        ensures { result ≡ spec.is_hunting self }
    {
        matches!(self, Hearing::Hunting)
    }
}

// A body byte is kept at its place.
#[inline]
pub fn keep(body: &mut [u8; MAX_BODY], event: Event, b: u8)
    ensures { body.new ≡ spec.keep event b body.old }
{
    if let Event::Kept { at } = event {
        store(body, at, b);
    }
}

// The guard is for links that no call makes.
#[inline]
fn store(body: &mut [u8; MAX_BODY], at: u8, b: u8)
    ensures { body.new ≡ set body.old at b }
{
    let i = at as usize;
    if i < MAX_BODY {
        body[i] = b;
    }
}
