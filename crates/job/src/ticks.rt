// What a tick does to the open send or session (sections 5 and 6).
ghost use Rattle.std.specs.Prelude.{◌≡◌, ◌+◌, ltb};
ghost use Rattle.rules.specs.Rules.{ack_wait, rules_of};
ghost use Rattle.job.specs.Ticks as spec;

use crate::job::{Act, Job, lose, put_out, start};
use crate::wire::wire_time;
use report::{Sending, Session};
use rules::{Cause, Choice};
use units::Millis;

// How long a copy of so many bytes waits for its ACK: its time on the wire, and the wait behind it.
#[inline]
fn ack_wait(size: u16) -> Millis
    ensures { result.0 ≡ ack_wait size }
{
    Millis(Job::ACK_WAIT.0 + wire_time(size) as u32)
}

// Whether a copy that has waited so long still waits. No copy waits less than `ACK_WAIT`, so before that the list is not read.
// (Numbers are compared, as in `has_time` of the crate `hearing`.)
#[inline]
fn still_waits(size: u16, elapsed: u32) -> bool
    ensures { result ≡ ltb elapsed (ack_wait size) }
{
    elapsed < Job::ACK_WAIT.0 || elapsed < ack_wait(size).0
}

// A tick while waiting for the ACK.
#[inline]
fn waited(
    choice: Choice,
    size: u16,
    hunting: bool,
    asks: Option<u8>,
    copies: u8,
    elapsed: u16,
) -> Act
    ensures { result ≡ spec.waited (rules_of choice) size hunting asks copies (elapsed + 1) }
{
    if still_waits(size, elapsed as u32 + 1) {
        let waiting = Job::Waiting {
            asks,
            copies,
            elapsed: elapsed + 1,
        };
        return Act::goes_on(waiting, Sending::Nothing);
    }
    lose(choice, Cause::Time, hunting, asks, copies)
}

// A tick of a back-off.
#[inline]
fn backed(hunting: bool, asks: Option<u8>, copies: u8, left: u16) -> Act
    ensures { result ≡ spec.backed hunting asks copies left }
{
    if 1 < left {
        let backing = Job::BackingOff {
            asks,
            copies,
            left: left - 1,
        };
        return Act::goes_on(backing, Sending::Nothing);
    }
    start(hunting, asks, copies)
}

// A tick while a session awaits its response.
#[inline]
fn awaited(command: u8, copies: u8, elapsed: u16) -> Act
    ensures { result ≡ spec.awaited command copies (elapsed + 1) }
{
    if elapsed as u32 + 1 < Job::RESPONSE_WAIT.0 {
        let awaiting = Job::Awaiting {
            command,
            copies,
            elapsed: elapsed + 1,
        };
        return Act::goes_on(awaiting, Sending::Nothing);
    }
    Act {
        session: Session::NoResponse(copies),
        ..Act::goes_on(Job::Idle, Sending::Nothing)
    }
}

// The sender's and the session's part of a tick that aborts no frame. (Called and not inlined, a tick of a link takes half as long
// again: what it answers is then stored in one width and loaded in another.)
#[inline(always)]
pub fn on_tick(choice: Choice, size: u16, hunting: bool, job: Job) -> Act
    ensures { result ≡ spec.on_tick (rules_of choice) size hunting job }
{
    match job {
        Job::Idle | Job::Due { .. } => Act::goes_on(job, Sending::Nothing),
        Job::Waiting {
            asks,
            copies,
            elapsed,
        } => waited(choice, size, hunting, asks, copies, elapsed),
        Job::BackingOff { asks, copies, left } => backed(hunting, asks, copies, left),
        Job::Awaiting {
            command,
            copies,
            elapsed,
        } => awaited(command, copies, elapsed),
    }
}

// And of one that does: a due copy goes out, with its wait at 0.
#[inline]
pub fn on_abort(choice: Choice, size: u16, job: Job) -> Act
    ensures { result ≡ spec.on_abort (rules_of choice) size job }
{
    match job {
        Job::Due { asks, copies } => put_out(asks, copies),
        _ => on_tick(choice, size, true, job),
    }
}
