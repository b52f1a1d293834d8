// What the open send or session does on an event, and at a restart (sections 5 and 6).
ghost use Rattle.std.specs.Prelude.{◌≡◌};
ghost use Rattle.rules.specs.Rules.{rules_of};
ghost use Rattle.sending.specs.Events as spec;

use hearing::{End, Event, Single};
use job::{Act, Job, lose, on_abort, on_tick, start};
use reception::{Awaited, is_awaited};
use report::{Sending, Session};
use rules::{Cause, Choice};

#[inline]
fn acknowledge(asks: Option<u8>, copies: u8) -> Act
    ensures { result ≡ spec.acknowledge asks copies }
{
    let Some(command) = asks else {
        return Act::goes_on(Job::Idle, Sending::Acknowledged(copies));
    };
    let awaiting = Job::Awaiting {
        command,
        copies,
        elapsed: 0,
    };
    let verdict = Sending::Acknowledged(copies);
    Act {
        session: Session::Waiting,
        ..Act::goes_on(awaiting, verdict)
    }
}

// 06, 15 or 18 while waiting, which comes while hunting: the copy is acknowledged, or given up.
#[inline]
fn on_answer(choice: Choice, single: Single, asks: Option<u8>, copies: u8) -> Act
    ensures { result ≡ spec.on_answer (rules_of choice) single asks copies }
{
    match single {
        Single::Ack => acknowledge(asks, copies),
        Single::Nak | Single::Can => lose(choice, Cause::Told, true, asks, copies),
    }
}

// In any other state such a byte is stray.
#[inline]
fn on_single(choice: Choice, single: Single, job: Job) -> Act
    ensures { result ≡ spec.on_single (rules_of choice) single job }
{
    match job {
        Job::Waiting { asks, copies, .. } => on_answer(choice, single, asks, copies),
        _ => Act::goes_on(job, Sending::Stray),
    }
}

// A reception has ended: a due copy goes out.
#[inline]
fn release(job: Job) -> Act
    ensures { result ≡ spec.release job }
{
    match job {
        Job::Due { asks, copies } => start(true, asks, copies),
        _ => Act::goes_on(job, Sending::Nothing),
    }
}

// What the open send or session waits to receive: a copy its ACK; a session, behind that, the response to its command.
#[inline]
pub fn awaited_by(job: Job) -> Awaited
    ensures { result ≡ spec.awaited_by job }
{
    match job {
        Job::Waiting { .. } => Awaited::Ack,
        Job::Awaiting { command, .. } => Awaited::Response { command },
        _ => Awaited::Nothing,
    }
}

// Whether a response with this command is the one that an open session awaits.
#[inline]
pub fn awaits(command: u8, job: Job) -> bool
    ensures { result ≡ spec.awaits command job }
{
    is_awaited(command, awaited_by(job))
}

#[inline]
fn copies_of(job: Job) -> u8
    ensures { result ≡ spec.copies_of job }
{
    match job {
        Job::Idle => 0,
        Job::Due { copies, .. }
        | Job::Waiting { copies, .. }
        | Job::BackingOff { copies, .. }
        | Job::Awaiting { copies, .. } => copies,
    }
}

// A response: the awaited one ends the session, any other is an end like the rest.
#[inline]
fn on_response(command: u8, job: Job) -> Act
    ensures { result ≡ spec.on_response command job }
{
    if awaits(command, job) {
        return Act {
            session: Session::Response(copies_of(job)),
            ..Act::goes_on(Job::Idle, Sending::Nothing)
        };
    }
    release(job)
}

// The end of a reception: a response may be the awaited one.
#[inline]
fn on_end(end: End, job: Job) -> Act
    ensures { result ≡ spec.on_end end job }
{
    match end {
        End::Response { command, .. } => on_response(command, job),
        _ => release(job),
    }
}

// What the job does on an event, with a held frame of so many bytes.
#[inline]
pub fn on_event(choice: Choice, size: u16, event: Event, job: Job) -> Act
    ensures { result ≡ spec.on_event (rules_of choice) size event job }
{
    match event {
        Event::Inside | Event::Kept { .. } | Event::Skipped => Act::goes_on(job, Sending::Nothing),
        Event::Alone(single) => on_single(choice, single, job),
        Event::Ended(end) => on_end(end, job),
        Event::TickHunting => on_tick(choice, size, true, job),
        Event::TickInside => on_tick(choice, size, false, job),
        Event::Aborted => on_abort(choice, size, job),
    }
}

fn abandon(asks: Option<u8>) -> Act
    ensures { result ≡ spec.abandon asks }
{
    match asks {
        None => Act::goes_on(Job::Idle, Sending::Abandoned),
        Some(_) => Act {
            session: Session::Abandoned,
            ..Act::goes_on(Job::Idle, Sending::Nothing)
        },
    }
}

// Restart: an open send is abandoned in the sending part, an open session in the session part alone.
pub fn on_restart(job: Job) -> Act
    ensures { result ≡ spec.on_restart job }
{
    match job {
        Job::Idle => Act::goes_on(Job::Idle, Sending::Nothing),
        Job::Due { asks, .. } | Job::Waiting { asks, .. } | Job::BackingOff { asks, .. } => {
            abandon(asks)
        }
        Job::Awaiting { command, .. } => abandon(Some(command)),
    }
}
