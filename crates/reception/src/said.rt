// What reception says of an event, the byte that it answers with, and how much it hands up (section 4).
ghost use Rattle.std.specs.Prelude.{◌≡◌, false};
ghost use Rattle.rules.specs.declared.Role.TheVariants.{Host};
ghost use Rattle.reception.specs.Said as spec;
ghost use Rattle.reception.specs.Promises.{is_of_frame, in_place_of};

use hearing::{End, Event, Single};
use report::Reception;
use rules::Role;

// What the open send or session waits to receive, as far as reception has to know it. (Three cases. With an `Option` for `Nothing` each
// match would name two types in place of one: no plainer.)
#[derive(Clone, Copy, Debug, PartialEq, Eq)]
pub enum Awaited {
    Nothing,
    // The ACK of a copy.
    Ack,
    // A response with this command.
    Response { command: u8 },
}

// What reception has to say of an event.
#[derive(Clone, Copy, Debug, PartialEq, Eq)]
pub struct Said {
    pub reception: Reception,
    // The single byte that a reception or a restart puts out, before any copy.
    pub reply: Option<Single>,
    // The number of body bytes handed up.
    pub up: u8,
}

// Whether a response with this command is the awaited one.
#[inline]
pub fn is_awaited(command: u8, awaited: Awaited) -> bool
    ensures { result ≡ spec.is_awaited command awaited }
{
    matches!(awaited, Awaited::Response { command: wanted } if command == wanted)
}

// By its place, as the list of section 4 has it: at nine uses the fields' names would be five lines for one.
#[inline]
fn saying(reception: Reception, reply: Option<Single>, up: u8) -> Said
    ensures { result ≡ spec.saying reception reply up }
{
    Said {
        reception,
        reply,
        up,
    }
}

// Whether a frame of Type 00 or 01 is cancelled: by a stand-in, while it waits for an ACK.
#[inline]
fn cancels(role: Role, awaited: Awaited) -> bool
    ensures { result ≡ spec.cancels role awaited }
{
    matches!(awaited, Awaited::Ack) && role.is_module()
}

// A response is handed up like any frame; one that is not awaited is marked stray.
#[inline]
fn said_response(size: u8, command: u8, awaited: Awaited) -> Said
    ensures { result ≡ spec.said_frame false (spec.response_as command awaited) size }
{
    let reception = if is_awaited(command, awaited) {
        Reception::Frame
    } else {
        Reception::StrayResponse
    };
    saying(reception, Some(Single::Ack), size)
}

#[inline]
fn said_end(end: End, awaited: Awaited) -> Said
    ensures { result ≡ spec.said_end Host end awaited }
{
    match end {
        End::BadLength => saying(Reception::BadLength, None, 0),
        End::BadSum => saying(Reception::BadSum, Some(Single::Nak), 0),
        End::Reserved => saying(Reception::Reserved, Some(Single::Ack), 0),
        End::Request { size } => saying(Reception::Frame, Some(Single::Ack), size),
        End::Response { size, command } => said_response(size, command, awaited),
    }
}

// What the host says of an event: it cancels nothing. So says a stand-in while it awaits no ACK.
#[inline]
pub fn said_as_host(event: Event, awaited: Awaited) -> Said
    ensures { result ≡ spec.said_on Host event awaited }
{
    match event {
        Event::Skipped => saying(Reception::Skipped, None, 0),
        Event::Ended(end) => said_end(end, awaited),
        Event::Aborted => saying(Reception::Abort, None, 0),
        _ => saying(Reception::Nothing, None, 0),
    }
}

// Whether it is said of a frame of Type 00 or 01 with the right checksum.
#[inline]
fn is_of_frame(reception: Reception) -> bool
    ensures { result ≡ is_of_frame reception }
{
    matches!(reception, Reception::Frame | Reception::StrayResponse)
}

// In place of frame and stray response: cancelled, answered with 18, and not handed up.
#[inline]
fn in_place_of(said: Said) -> Said
    ensures { result ≡ in_place_of said }
{
    if is_of_frame(said.reception) {
        return saying(Reception::Cancelled, Some(Single::Can), 0);
    }
    said
}

// What reception says of an event, the byte that it puts out, and how much it hands up.
#[inline]
pub fn said_on(role: Role, event: Event, awaited: Awaited) -> Said
    ensures { result ≡ spec.said_on role event awaited }
{
    let said = said_as_host(event, awaited);
    if cancels(role, awaited) {
        return in_place_of(said);
    }
    said
}
