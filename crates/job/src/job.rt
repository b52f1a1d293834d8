// The open send or session (sections 5 and 6): its state, its waits and back-offs, and how a copy goes out or is given up.
ghost use Rattle.std.specs.Prelude.{◌≡◌, ◌<◌};
ghost use Rattle.rules.specs.Rules.{by_copy, back_offs, sooner_offs, back_by, rules_of};
ghost use Rattle.rules.specs.declared.Cause.TheVariants.{Time};
ghost use Rattle.job.specs.Job as spec;

use report::{Reset, Sending, Session};
use rules::{Cause, Choice, Mode};
use units::Millis;

// The open send or session. `asks` is the command that a session asks for, and a plain send asks for none. (It and `copies` stand in each
// state, since theorems and rows of `history` and `scenes` state a job by its parts: `JobIn`, `DueTick`, `due_rows`, `waiting_rows`. So a struct of the
// two, for the functions alone, would be made of the parts before each call and taken apart again for the next state: no plainer.)
#[derive(Clone, Copy, Debug, PartialEq, Eq)]
pub enum Job {
    Idle,
    Due {
        asks: Option<u8>,
        copies: u8,
    },
    Waiting {
        asks: Option<u8>,
        copies: u8,
        elapsed: u16,
    },
    BackingOff {
        asks: Option<u8>,
        copies: u8,
        left: u16,
    },
    // A session whose copy was acknowledged.
    Awaiting {
        command: u8,
        copies: u8,
        elapsed: u16,
    },
}

impl Job {
    // How long a copy waits for its ACK before it is lost, behind the time on the wire.
    pub const ACK_WAIT: Millis = Millis(1600);
    // How long a session waits for its response.
    pub const RESPONSE_WAIT: Millis = Millis(5000);
    // The back-offs after copies 1, 2 and 3. (Names and no array: `timings` of a link has a field for each, and an edit changes each.)
    pub const BACK_OFF_1: Millis = Millis(100);

    pub const BACK_OFF_2: Millis = Millis(1100);

    pub const BACK_OFF_3: Millis = Millis(2100);
    // And less the 1,600 ms already waited: in the new mode, where the copy was lost by time.
    pub const SOONER_1: Millis = Millis(0);

    pub const SOONER_2: Millis = Millis(0);

    pub const SOONER_3: Millis = Millis(500);

    // A send or session is open.
    #[inline]
    pub fn is_open(self) -> bool
        ensures { result ≡ spec.is_open self }
    {
        !matches!(self, Job::Idle)
    }
}

#[derive(Clone, Copy, Debug, PartialEq, Eq)]
pub struct Act {
    pub job: Job,
    pub sending: Sending,
    pub session: Session,
    pub reset: Reset,
    // Whether the held frame goes out. (It does where `sending` is a copy, and only there, but the promises have it as a part of its own:
    // `Act`, `decided`, and the edits `copy-not-put-out`, `going-on-puts-a-copy-out`, `copy-not-decided`.)
    pub copy: bool,
}

impl Act {
    // The job goes on: nothing in the session part, no reset, no copy.
    #[inline]
    pub fn goes_on(job: Job, sending: Sending) -> Self
        ensures { result ≡ spec.goes_on job sending }
    {
        Act {
            job,
            sending,
            session: Session::Nothing,
            reset: Reset::Nothing,
            copy: false,
        }
    }
}

// The number of the next copy. The guard is for links that no call makes.
#[inline]
fn next_copy(copies: u8) -> u8
    ensures { result ≡ spec.next_copy copies }
{
    copies.min(3) + 1
}

// A copy is handed over, and its wait starts at 0.
#[inline]
pub(crate) fn put_out(asks: Option<u8>, copies: u8) -> Act
    ensures { result ≡ spec.put_out asks copies }
{
    let n = next_copy(copies);
    let waiting = Job::Waiting {
        asks,
        copies: n,
        elapsed: 0,
    };
    Act {
        copy: true,
        ..Act::goes_on(waiting, Sending::Copy(n))
    }
}

// The next copy: out if hunting, else due.
#[inline]
pub fn start(hunting: bool, asks: Option<u8>, copies: u8) -> Act
    ensures { result ≡ spec.start hunting asks copies }
{
    if hunting {
        put_out(asks, copies)
    } else {
        Act::goes_on(Job::Due { asks, copies }, Sending::Due)
    }
}

#[inline]
fn not_sent(asks: Option<u8>, copies: u8) -> Session
    ensures { result ≡ spec.not_sent asks copies }
{
    match asks {
        None => Session::Nothing,
        Some(_) => Session::NotSent(copies),
    }
}

#[inline]
fn fail(asks: Option<u8>, copies: u8) -> Act
    ensures { result ≡ spec.fail asks copies }
{
    Act {
        session: not_sent(asks, copies),
        reset: Reset::Delivery,
        ..Act::goes_on(Job::Idle, Sending::Failed(copies))
    }
}

// So many ticks go by before the next copy.
#[inline]
fn backing_off(time: Millis, asks: Option<u8>, copies: u8) -> Act
    requires { time.0 < 65536 }
    ensures { result ≡ spec.backing_off time asks copies }
{
    let left = time.0 as u16;
    Act::goes_on(
        Job::BackingOff { asks, copies, left },
        Sending::BackingOff(time),
    )
}

// Backs off so many ticks. With 0 there is no back-off: the next copy goes out at once if hunting, else it is due.
#[inline]
fn back_off(time: Millis, hunting: bool, asks: Option<u8>, copies: u8) -> Act
    requires { time.0 < 65536 }
    ensures { result ≡ spec.back_off time.0 hunting asks copies }
{
    if time.0 == 0 {
        return start(hunting, asks, copies);
    }
    backing_off(time, asks, copies)
}

// One of three times: after copy 1, after copy 2, after copy 3.
#[inline]
fn by_copy(copies: u8, first: Millis, second: Millis, third: Millis) -> Millis
    ensures { result.0 ≡ by_copy first.0 second.0 third.0 copies }
{
    match copies {
        1 => first,
        2 => second,
        _ => third,
    }
}

// The back-off in full.
#[inline]
fn in_full(copies: u8) -> Millis
    ensures { result.0 ≡ back_offs copies }
{
    by_copy(copies, Job::BACK_OFF_1, Job::BACK_OFF_2, Job::BACK_OFF_3)
}

// And less what was already waited.
#[inline]
fn sooner(copies: u8) -> Millis
    ensures { result.0 ≡ sooner_offs copies }
{
    by_copy(copies, Job::SOONER_1, Job::SOONER_2, Job::SOONER_3)
}

// The back-off after a loss by time, by the mode.
#[inline]
fn after_silence(mode: Mode, copies: u8) -> Millis
    ensures { result.0 ≡ back_by mode Time copies }
{
    match mode {
        Mode::Sooner => sooner(copies),
        Mode::Spaced => in_full(copies),
    }
}

// The back-off by the mode and the cause: 15 and 18 have it in full.
#[inline]
fn back_off_after(mode: Mode, cause: Cause, copies: u8) -> Millis
    ensures { result.0 ≡ back_by mode cause copies }
{
    match cause {
        Cause::Told => in_full(copies),
        Cause::Time => after_silence(mode, copies),
    }
}

// The copy is given up: after copies 1, 2 and 3 the sender backs off, after copy 4 the send has failed.
pub fn lose(choice: Choice, cause: Cause, hunting: bool, asks: Option<u8>, copies: u8) -> Act
    ensures { result ≡ spec.lose (rules_of choice) cause hunting asks copies }
{
    if 4 <= copies {
        return fail(asks, copies);
    }
    let time = back_off_after(choice.mode, cause, copies);
    back_off(time, hunting, asks, copies)
}
