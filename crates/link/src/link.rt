// The link's state, its timings, and opening.
ghost use Rattle.std.specs.Prelude.{◌≡◌};
ghost use Rattle.rules.specs.Rules.{usual};
ghost use Rattle.link.specs.Link.{fresh_link, timings};

use frame::{MAX_BODY, MAX_FRAME};
use hearing::Hearing;
use job::Job;
use rules::Choice;
use step::Core;
use units::Millis;

// A link comes only from opening or an earlier call: no other crate can make one.
#[derive(Clone, Copy)]
pub struct Link {
    pub(crate) core: Core,
    // The body of the half-received frame, and the frame being sent. (Arrays, and their lengths in `core`: no heap, and `fresh_link`, `keep` and
    // `over` are of these.)
    pub(crate) body: [u8; MAX_BODY],
    pub(crate) frame: [u8; MAX_FRAME],
}

// The protocol's timings, together.
#[derive(Clone, Copy, Debug, PartialEq, Eq)]
pub struct Timings {
    pub frame_time: Millis,
    pub ack_wait: Millis,
    pub response_wait: Millis,
    // After copies 1, 2 and 3.
    pub back_off_1: Millis,
    pub back_off_2: Millis,
    pub back_off_3: Millis,
    // And where the 1,600 ms already waited are subtracted.
    pub sooner_1: Millis,
    pub sooner_2: Millis,
    pub sooner_3: Millis,
}

impl Link {
    // How long a frame may take, from its first byte (section 4).
    pub const FRAME_TIME: Millis = Hearing::FRAME_TIME;
    // How long a copy waits for its ACK before it is lost, behind the time on the wire (section 5).
    pub const ACK_WAIT: Millis = Job::ACK_WAIT;
    // How long a session waits for its response (section 6).
    pub const RESPONSE_WAIT: Millis = Job::RESPONSE_WAIT;
    // The back-offs after copies 1, 2 and 3 (section 5).
    pub const BACK_OFF_1: Millis = Job::BACK_OFF_1;

    pub const BACK_OFF_2: Millis = Job::BACK_OFF_2;

    pub const BACK_OFF_3: Millis = Job::BACK_OFF_3;
    // And those after silence in the new mode (document 02, P4).
    pub const SOONER_1: Millis = Job::SOONER_1;

    pub const SOONER_2: Millis = Job::SOONER_2;

    pub const SOONER_3: Millis = Job::SOONER_3;

    // Opening: a fresh link, and nothing is put out. Without a choice it is the host, in the new mode.
    pub fn open() -> Self
        ensures { result ≡ fresh_link usual }
    {
        Link::open_as(Choice::usual())
    }

    // Opening with a choice, which the link keeps from then on.
    pub fn open_as(choice: Choice) -> Self
        ensures { result ≡ fresh_link choice }
    {
        Link {
            core: Core::fresh(choice),
            body: [0; MAX_BODY],
            frame: [0; MAX_FRAME],
        }
    }

    // The nine constants. Each is the documents' number by this promise.
    pub fn timings() -> Timings
        ensures { result ≡ timings }
    {
        Timings {
            frame_time: Link::FRAME_TIME,
            ack_wait: Link::ACK_WAIT,
            response_wait: Link::RESPONSE_WAIT,
            back_off_1: Link::BACK_OFF_1,
            back_off_2: Link::BACK_OFF_2,
            back_off_3: Link::BACK_OFF_3,
            sooner_1: Link::SOONER_1,
            sooner_2: Link::SOONER_2,
            sooner_3: Link::SOONER_3,
        }
    }
}
