// One step of the link, on numbers alone: what reception says of an event, the run of bad sums, and the job's act on it.
// Hearing is no part of it: that way it stays in registers while a call decides. (So the numbers go one by one: a struct of the others, inside
// `Core`, would put a name more before each field that the theorems of `link` and `history` read, as `core.job`: no plainer.)
ghost use Rattle.std.specs.Prelude.{◌≡◌, ℕ, false};
ghost use Rattle.rules.specs.Rules.{rules_of};
ghost use Rattle.rules.specs.declared.Choice.{Choice};
ghost use Rattle.step.specs.Promises as ways;
ghost use Rattle.step.specs.Deciding as spec;

use hearing::{Event, Single};
use job::{Act, Job, on_abort, on_tick, start};
use reception::{Awaited, Said, Sums, said_as_host, said_on, sums_on};
use report::{Reception, Reset, Sending, Session};
use rules::Choice;
use sending::{awaited_by, on_event, on_restart};

// What a call decides, before a lent byte is written; hearing and the held frame's length stand beside it. (The four that a report says stand
// one by one here and there, as section 7 lists them: a struct of them would put a name more before each that theorems read: no plainer.)
#[derive(Clone, Copy, Debug, PartialEq, Eq)]
pub struct Outcome {
    pub job: Job,
    // The run of bad sums.
    pub bad: u8,
    pub reception: Reception,
    pub sending: Sending,
    pub session: Session,
    pub reset: Reset,
    // The single byte put out, and whether a copy follows it (as in `Act`).
    pub reply: Option<Single>,
    pub copy: bool,
    // The number of body bytes handed up.
    pub up: u8,
}

// The reset of a call: the bad sums' or the sender's. (`Reset` is a list of the report, which is told by numbers: no `Option`, so no `or`.)
#[inline]
pub fn either(sums: Reset, sender: Reset) -> Reset
    ensures { result ≡ spec.either sums sender }
{
    match sums {
        Reset::Nothing => sender,
        _ => sums,
    }
}

#[inline]
fn decided(said: Said, sums: Sums, act: Act) -> Outcome
    ensures { result ≡ spec.decided said sums act }
{
    Outcome {
        job: act.job,
        bad: sums.bad,
        reception: said.reception,
        sending: act.sending,
        session: act.session,
        reset: either(sums.reset, act.reset),
        reply: said.reply,
        copy: act.copy,
        up: said.up,
    }
}

// Reception first, then the sender and the session.
#[inline]
fn decide_open(choice: Choice, job: Job, bad: u8, size: u16, event: Event) -> Outcome
    ensures { result ≡ spec.decide (rules_of choice) size event job bad }
{
    let said = said_on(choice.role, event, awaited_by(job));
    let sums = sums_on(event, bad);
    decided(said, sums, on_event(choice, size, event, job))
}

// A single byte is awaited only by a copy that waits for its ACK.
#[inline]
fn is_waiting(job: Job) -> bool
    ensures { result ≡ ways.is_waiting job }
{
    matches!(job, Job::Waiting { .. })
}

// The end of a frame matters to a due copy, which then goes out, and to a session that awaits its response. And a stand-in cancels
// a frame while it waits for an ACK; a host does not, but to ask for the role here would make the short way longer.
#[inline]
fn heeds_ends(job: Job) -> bool
    ensures { result ≡ ways.heeds_ends job }
{
    matches!(
        job,
        Job::Due { .. } | Job::Waiting { .. } | Job::Awaiting { .. }
    )
}

// Whether an event may do something to this job, or the job has a say in it: a tick or an abort concerns any.
#[inline]
fn concerns(event: Event, job: Job) -> bool
    ensures { result ≡ ways.concerns event job }
{
    match event {
        Event::Inside | Event::Kept { .. } | Event::Skipped => false,
        Event::Alone(_) => is_waiting(job),
        Event::Ended(_) => heeds_ends(job),
        _ => true,
    }
}

// To a job that an event does not concern, 06, 15 and 18 are stray, and the rest is nothing.
#[inline]
fn stray_on(event: Event) -> Sending
    ensures { result ≡ ways.stray_on event }
{
    match event {
        Event::Alone(_) => Sending::Stray,
        _ => Sending::Nothing,
    }
}

// The same for an event that does not concern the job: short, and what a byte or a run of bytes mostly meets. Whoever hears it
// says what the host says.
#[inline]
fn decide_aside(job: Job, bad: u8, event: Event) -> Outcome
    ensures { ways.concerns event job ≡ false → (c : Choice) → (size : ℕ) → result ≡ spec.decide (rules_of c) size event job bad }
{
    let said = said_as_host(event, Awaited::Nothing);
    let sums = sums_on(event, bad);
    decided(said, sums, Act::goes_on(job, stray_on(event)))
}

// What an event decides, by whether it concerns the job.
#[inline]
pub fn decide(choice: Choice, job: Job, bad: u8, size: u16, event: Event) -> Outcome
    ensures { result ≡ spec.decide (rules_of choice) size event job bad }
{
    if concerns(event, job) {
        return decide_open(choice, job, bad, size, event);
    }
    decide_aside(job, bad, event)
}

// An act beside which reception says this, and puts out no byte.
#[inline]
fn acted(reception: Reception, bad: u8, act: Act) -> Outcome
    ensures { result ≡ spec.acted reception bad act }
{
    let said = Said {
        reception,
        reply: None,
        up: 0,
    };
    let sums = Sums {
        bad,
        reset: Reset::Nothing,
    };
    decided(said, sums, act)
}

// A tick, by what it was to hearing. (Hearing a tick gives no event of a byte. Two events share an arm, since `on_tick`
// is inlined where it is called: an arm for each would have two copies of it.)
#[inline]
pub fn decide_tick(choice: Choice, job: Job, bad: u8, size: u16, event: Event) -> Outcome
    ensures { result ≡ spec.decide (rules_of choice) size event job bad }
{
    match event {
        Event::TickHunting | Event::TickInside => {
            let hunting = matches!(event, Event::TickHunting);
            acted(Reception::Nothing, bad, on_tick(choice, size, hunting, job))
        }
        Event::Aborted => acted(Reception::Abort, bad, on_abort(choice, size, job)),
        _ => decide_open(choice, job, bad, size, event),
    }
}

// An accepted send or session: copy 1 goes out if hunting, else it is due.
#[inline]
pub fn opening(hunting: bool, asks: Option<u8>, bad: u8) -> Outcome
    ensures { result ≡ spec.opening hunting asks bad }
{
    acted(Reception::Nothing, bad, start(hunting, asks, 0))
}

// Restart: 15 is put out, and an open send or session is abandoned.
#[inline]
pub fn restarting(job: Job) -> Outcome
    ensures { result ≡ spec.restarting job }
{
    Outcome {
        reply: Some(Single::Nak),
        ..acted(Reception::Nothing, 0, on_restart(job))
    }
}
