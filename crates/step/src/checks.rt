// The checks of the link calls (section 3), in their order: the first that is met refuses.
ghost use Rattle.std.specs.Prelude.{◌≡◌};
ghost use Rattle.step.specs.Checks.{lacks_room, room_checks, passes};
ghost use Rattle.step.specs.Promises.{send_checks, session_checks};

use frame::{LINE_ROOM, MAX_BODY, MAX_PARAMETERS, REQ, RES};
use job::Job;
use refusals::Refusal;

// Whether the lent buffers, of so many bytes, are too short for what a call can put out and hand up.
#[inline]
pub fn lacks_room(line: usize, up: usize) -> bool
    ensures { result ≡ lacks_room line up }
{
    line < LINE_ROOM || up < MAX_BODY
}

// ROOM, where they are: the first check of every call.
#[inline]
pub fn room(line: usize, up: usize) -> Result<(), Refusal>
    ensures { result ≡ room_checks line up passes }
{
    if lacks_room(line, up) {
        return Err(Refusal::Room);
    }
    Ok(())
}

// A send's, for so many parameters. `kind` is any byte: KIND refuses it here. (`build` tests Type and length too, but not behind BUSY. One
// function of the two tests would have a contract and edits of its own, for two lines in each: no plainer.)
pub fn send_checks(line: usize, up: usize, job: Job, kind: u8, n: usize) -> Result<(), Refusal>
    ensures { result ≡ send_checks line up job kind n }
{
    room(line, up)?;
    if job.is_open() {
        return Err(Refusal::Busy);
    }
    if RES < kind {
        return Err(Refusal::Kind);
    }
    if MAX_PARAMETERS < n {
        return Err(Refusal::Long);
    }
    Ok(())
}

// A session's: those of a send that is a request, which a session always is.
pub fn session_checks(line: usize, up: usize, job: Job, n: usize) -> Result<(), Refusal>
    ensures { result ≡ session_checks line up job n }
{
    send_checks(line, up, job, REQ, n)
}
