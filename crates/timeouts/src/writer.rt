// Writing the response (document 02, P5), for the module's end of the link.
ghost use Rattle.timeouts.specs.Writer.{WriteTimeouts};

use crate::{SET_TIMEOUTS, is_old_timeouts};
use frame::RES;
use masks::write_body;
use refusals::Refusal;
use units::{Millis, Ticks10};

// Writes the body with these two times over the first of the lent bytes, and answers its length. Bytes beyond it stay; a refusal leaves all of them.
// A time that is no number of ticks is RANGE, before ROOM, as it is for the frame that sets the two.
pub fn write_timeouts(rxack: Millis, rxbyte: Millis, lent: &mut [u8]) -> Result<u16, Refusal>
    ensures { WriteTimeouts rxack rxbyte lent.old result lent.new }
{
    let ack = Ticks10::try_from(rxack)?;
    let byte = Ticks10::try_from(rxbyte)?;
    // No `write_parts` and no `Layout`: this body has one part, so that there is nothing to join, and one caller.
    let body = [RES, SET_TIMEOUTS, ack.0, byte.0];
    write_body(is_old_timeouts(&body), &body, lent)
}
