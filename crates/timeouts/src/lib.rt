// Set Timeouts, command 06, and its RES, read and written (document 01, section 8; 002, 7.5).
#![tactic(auto)]

mod writer;

ghost use Rattle.std.specs.Prelude.{◌≡◌};
ghost use Rattle.timeouts.specs.Timeouts.{SetTimeouts, is_old_timeouts, read_timeouts};

use frame::{REQ, build};
use masks::is_response;
use refusals::Refusal;
use units::{Millis, Ticks10};
pub use writer::write_timeouts;

// The command.
const SET_TIMEOUTS: u8 = 0x06;

// The timeouts that were set before.
#[derive(Clone, Copy, Debug, PartialEq, Eq)]
pub struct OldTimeouts {
    pub rxack: Millis,
    pub rxbyte: Millis,
}

// Writes the whole frame that sets the two timeouts, and answers its length. Bytes beyond it stay; a refusal leaves all of them.
// Two times, here and in `write_timeouts`, and no `OldTimeouts`: it would be put together at each call to be taken apart at once, for these are no old ones.
pub fn set_timeouts(rxack: Millis, rxbyte: Millis, lent: &mut [u8]) -> Result<u16, Refusal>
    ensures { SetTimeouts rxack rxbyte lent.old result lent.new }
{
    let ack = Ticks10::try_from(rxack)?;
    let byte = Ticks10::try_from(rxbyte)?;
    build(REQ, SET_TIMEOUTS, &[ack.0, byte.0], lent)
}

// Whether the body is of the layout.
fn is_old_timeouts(body: &[u8]) -> bool
    ensures { result ≡ is_old_timeouts body.now }
{
    is_response(body, SET_TIMEOUTS) && body.len() == 4
}

// Reads the whole body.
pub fn read_timeouts(body: &[u8]) -> Result<OldTimeouts, Refusal>
    ensures { result ≡ read_timeouts body.now }
{
    if !is_old_timeouts(body) {
        return Err(Refusal::Form);
    }
    Ok(OldTimeouts {
        rxack: Millis::from(Ticks10(body[2])),
        rxbyte: Millis::from(Ticks10(body[3])),
    })
}
