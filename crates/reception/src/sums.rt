// The run of bad sums (section 4).
ghost use Rattle.std.specs.Prelude.{◌≡◌};
ghost use Rattle.reception.specs.Sums as spec;

use hearing::{End, Event};
use report::Reset;

// The run of bad sums after an event, and the reset that it gives.
#[derive(Clone, Copy, Debug, PartialEq, Eq)]
pub struct Sums {
    pub bad: u8,
    pub reset: Reset,
}

// By its place, for five uses in arms of one line.
#[inline]
fn run_of(bad: u8, reset: Reset) -> Sums
    ensures { result ≡ spec.run_of bad reset }
{
    Sums { bad, reset }
}

// One bad sum more: the third indicates a reset.
#[inline]
fn one_bad_more(bad: u8) -> Sums
    ensures { result ≡ spec.one_bad_more bad }
{
    if bad < 2 {
        return run_of(bad + 1, Reset::Nothing);
    }
    run_of(0, Reset::Sums)
}

#[inline]
fn sums_end(end: End, bad: u8) -> Sums
    ensures { result ≡ spec.sums_end end bad }
{
    match end {
        End::BadLength => run_of(bad, Reset::Nothing),
        End::BadSum => one_bad_more(bad),
        _ => run_of(0, Reset::Nothing),
    }
}

// The run of bad sums after an event.
#[inline]
pub fn sums_on(event: Event, bad: u8) -> Sums
    ensures { result ≡ spec.sums_on event bad }
{
    match event {
        Event::Ended(end) => sums_end(end, bad),
        _ => run_of(bad, Reset::Nothing),
    }
}
