// The two units of time (document 01, section 5), kept apart in every interface.
#![tactic(auto)]

ghost use Rattle.std.specs.Prelude.{◌≡◌};
ghost use Rattle.units.specs.Units.{ticks_of, millis_of};

use refusals::Refusal;

// Milliseconds: what the link counts in.
#[derive(Clone, Copy, Debug, PartialEq, Eq, PartialOrd, Ord)]
pub struct Millis(pub u32);

// Ticks of 10 ms: what the Set Timeouts command counts in.
#[derive(Clone, Copy, Debug, PartialEq, Eq)]
pub struct Ticks10(pub u8);

// The one conversion that can refuse: a time that is no multiple of 10 or above 2,550 ms is RANGE.
impl TryFrom<Millis> for Ticks10 {
    type Error = Refusal;

    ghost try_from_gives = { λ time r. r ≡ ticks_of time };

    fn try_from(time: Millis) -> Result<Ticks10, Refusal> {
        let Millis(ms) = time;
        if 2550 < ms || ms % 10 != 0 {
            return Err(Refusal::Range);
        }
        Ok(Ticks10((ms / 10) as u8))
    }
}

// And back, which is never refused.
impl From<Ticks10> for Millis {
    ghost from_gives = { λ time r. r ≡ millis_of time };

    fn from(time: Ticks10) -> Millis {
        Millis(u32::from(time.0) * 10)
    }
}
