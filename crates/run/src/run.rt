// A run of bytes, heard up to the first byte that has news (section 7): a loop over the bytes that breaks there. A turn of it
// takes more than one byte where it can: noise and the byte that ends it, an 01 and its Length, or a body in one walk and its
// checksum.
ghost use Rattle.std.specs.Prelude.{◌≡◌, List, ℕ, ◌+◌, ◌-◌, ◌≤◌, ◌<◌, min, length};
ghost use Rattle.frame.specs.Bytes.{fold};
ghost use Rattle.hearing.specs.Promises as hearings;
ghost use Rattle.run.specs.Promises as spec;
ghost use Rattle.run.specs.Promises.{HearRun, Noise, Quiet, Onward};
ghost use Rattle.hearing.specs.declared.hearing.Hearing.TheVariants as hearing;

use frame::{ACK, CAN, MAX_BODY, NAK, START};
use hearing::{Event, Heard, Hearing, Partial, hunted, measured};

// How far a run of bytes was heard: the hearing after it, the last event, and how many bytes were taken. (The first two make a `Heard`. They
// stand apart, since each is read alone, here and in `Link::bytes`: as one they would be `reach.heard.hearing`, no plainer.)
#[derive(Clone, Copy, Debug, PartialEq, Eq)]
pub struct Reach {
    pub hearing: Hearing,
    pub event: Event,
    pub taken: usize,
}

#[inline]
fn gone(heard: Heard, taken: usize) -> Reach
    ensures { result ≡ spec.gone heard taken }
{
    let Heard { hearing, event } = heard;
    Reach {
        hearing,
        event,
        taken,
    }
}

// 01, 06, 15 and 18 mean something while hunting; any other byte is noise.
#[inline]
fn is_sign(b: u8) -> bool
    ensures { result ≡ spec.is_sign b }
{
    matches!(b, START | ACK | NAK | CAN)
}

// Where the noise that begins at `from` ends. (By `position` of the slice's iterator a run was tried to take up to an eighth longer, which
// misses the bar: runs of mix B are held to 1.1 x lean, and take 1.04 and 1.05 by this in docs/BENCH.md.)
#[inline]
fn noise(bytes: &[u8], from: usize) -> usize
    requires { from ≤ length bytes.now }
    ensures { Noise bytes.now from result }
{
    for i in from..bytes.len() {
        if is_sign(bytes[i]) {
            return i;
        }
    }
    bytes.len()
}

// The byte that comes at this place of the body, or what was there.
#[inline]
fn picked(at: u8, place: u8, s: &[u8], old: u8) -> u8
    ensures { result ≡ spec.picked at place s.now old }
{
    let Some(k) = place.checked_sub(at) else {
        return old;
    };
    s.get(k as usize).copied().unwrap_or(old)
}

// Body bytes at once: each is folded into the sum, and kept at its place, where there is one: at all but links that no call makes.
#[inline]
fn walk(sum: u8, s: &[u8], at: u8, body: &mut [u8; MAX_BODY]) -> u8
    ensures { (result ≡ fold sum s.now) × (body.new ≡ spec.kept body.old at s.now) }
{
    let first = MAX_BODY.min(at as usize);
    let n = s.len().min(MAX_BODY - first);
    body[first..first + n].copy_from_slice(&s[..n]);
    frame::fold(sum, s)
}

// A half-received frame with these body bytes more.
#[inline]
fn walked(p: Partial, s: &[u8], body: &mut [u8; MAX_BODY]) -> Partial
    requires { length s.now ≤ p.size - p.at }
    ensures { (result ≡ hearings.walked p s.now) × (body.new ≡ spec.kept body.old p.at s.now) }
{
    let kind = picked(p.at, 0, s, p.kind);
    let command = picked(p.at, 1, s, p.command);
    let sum = walk(p.sum, s, p.at, body);
    Partial {
        at: p.at + s.len() as u8,
        sum,
        kind,
        command,
        ..p
    }
}

// How many of the bytes that are there belong to the body.
#[inline]
fn body_left(p: Partial, there: usize) -> usize
    ensures { result ≡ min (p.size - p.at) there }
{
    (p.size.saturating_sub(p.at) as usize).min(there)
}

// The turns. All share the fact `Quiet`, of the reach and the bytes. (As the invariant of a struct of both, it would be shown each time that
// one is made of what a turn answers, and the reach taken out again behind the last: no plainer.)

// Inside a body: what there is of it, and the checksum where it is there too.
fn body_on(r: Reach, p: Partial, bytes: &[u8], body: &mut [u8; MAX_BODY]) -> Reach
    requires { Quiet bytes.now r × (r.hearing ≡ hearing.Body p) }
    ensures { (Onward bytes.now r body.old result body.new) × (r.taken < result.taken) × (result.taken ≤ length bytes.now) }
{
    let i = r.taken;
    let n = body_left(p, bytes.len() - i);
    let end = i + n;
    let next = walked(p, &bytes[i..end], body);
    if end < bytes.len() {
        return gone(next.followed(bytes[end]), end + 1);
    }
    Reach {
        hearing: Hearing::Body(next),
        event: Event::Kept { at: next.at - 1 },
        taken: end,
    }
}

// Behind an 01: Length.
fn head_on(r: Reach, clock: u16, bytes: &[u8]) -> Reach
    requires { Quiet bytes.now r × (r.hearing ≡ hearing.Head clock) }
    ensures { (result.taken ≡ r.taken + 1) × ((body : List ℕ) → Onward bytes.now r body result body) }
{
    gone(measured(clock, bytes[r.taken]), r.taken + 1)
}

// While hunting: noise, and the byte that ends it; where that is an 01, its Length too, so that a frame costs a turn less.
fn hunt_on(r: Reach, bytes: &[u8]) -> Reach
    requires { Quiet bytes.now r × (r.hearing ≡ hearing.Hunting) }
    ensures { (r.taken < result.taken) × (result.taken ≤ length bytes.now) × ((body : List ℕ) → Onward bytes.now r body result body) }
{
    let i = noise(bytes, r.taken);
    if i < bytes.len() {
        let b = bytes[i];
        if b == START && i + 1 < bytes.len() {
            return gone(measured(0, bytes[i + 1]), i + 2);
        }
        return gone(hunted(b), i + 1);
    }
    Reach {
        hearing: Hearing::Hunting,
        event: Event::Skipped,
        taken: i,
    }
}

// One turn, by where the hearing stands.
fn onward(r: Reach, bytes: &[u8], body: &mut [u8; MAX_BODY]) -> Reach
    requires { Quiet bytes.now r }
    ensures { (Onward bytes.now r body.old result body.new) × (r.taken < result.taken) × (result.taken ≤ length bytes.now) }
{
    match r.hearing {
        Hearing::Hunting => hunt_on(r, bytes),
        Hearing::Head { clock } => head_on(r, clock, bytes),
        Hearing::Body(p) => body_on(r, p, bytes, body),
    }
}

// Whether a byte heard as this event has news: it is a single byte, or ends a frame.
fn has_news(event: Event) -> bool
    ensures { result ≡ spec.has_news event }
{
    !matches!(event, Event::Inside | Event::Kept { .. } | Event::Skipped)
}

// The bytes heard, up to the first that has news; body bytes are kept. (A `while`, and no `for`: each turn takes as many bytes as it
// can, and what it took is its own answer.)
pub fn hear_run(before: Hearing, bytes: &[u8], body: &mut [u8; MAX_BODY]) -> Reach
    ensures { HearRun before bytes.now body.old result body.new }
{
    let mut reach = Reach {
        hearing: before,
        event: Event::Inside,
        taken: 0,
    };
    while reach.taken < bytes.len() {
        reach = onward(reach, bytes, body);
        if has_news(reach.event) {
            break;
        }
    }
    reach
}
