// The only writer of lent buffers: what a step puts on the line and hands up.
ghost use Rattle.writing.specs.Promises.{PutReply, PutLine, PutUp};

use frame::MAX_FRAME;
use hearing::Single;
use step::Outcome;

// In all three 0 says how many bytes were written, and says it too where there was no room for them: so reading 25 of
// docs/DECISIONS.md has it, and `PutReply`, `PutLine`, `PutUp` promise one number for both.

// Writes the single byte, where there is one, if the line is not empty; returns how many bytes.
#[inline]
pub fn put_reply(reply: Option<Single>, line: &mut [u8]) -> u16
    ensures { PutReply reply line.old result line.new }
{
    let Some(single) = reply else { return 0 };
    if line.is_empty() {
        return 0;
    }
    line[0] = u8::from(single);
    1
}

// Writes the single byte and the copy behind it, if there is room for both; returns how many bytes. (`PutLine` takes any `size` and asks for
// the room of the whole frame; a slice cut at `size` would have neither.)
#[inline]
pub fn put_line(outcome: Outcome, size: u16, frame: &[u8], line: &mut [u8]) -> u16
    ensures { PutLine outcome.reply outcome.copy size frame.now line.old result line.new }
{
    if MAX_FRAME < frame.len() || line.len() <= frame.len() {
        return 0;
    }
    let at = put_reply(outcome.reply, line);
    if outcome.copy {
        let n = (size as usize).min(frame.len());
        frame::lay(frame, n, line, at as usize);
        return at + n as u16;
    }
    at
}

// Writes the body's first bytes, if there is room for all of it; returns how many.
#[inline]
pub fn put_up(body: &[u8], n: u8, up: &mut [u8]) -> u16
    ensures { PutUp n body.now up.old result up.new }
{
    if up.len() < body.len() {
        return 0;
    }
    let k = (n as usize).min(body.len());
    frame::lay(body, k, up, 0);
    k as u16
}
