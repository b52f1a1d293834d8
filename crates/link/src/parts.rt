// The parts of a link, for a caller that keeps its numbers and its two arrays itself, and the calls on them (section 3).
ghost use Rattle.std.specs.Prelude.{◌≡◌, None, Some, length};
ghost use Rattle.frame.specs.Frame.{frame_of, REQ};
ghost use Rattle.rules.specs.Rules.{rules_of};
ghost use Rattle.step.specs.Checks.{passes, send_own, session_own};
ghost use Rattle.link.specs.Out.{byte_out, tick_out, open_out, restart_out, run_out};
ghost use Rattle.link.specs.Calls.{CallPromise, RunPromise};
ghost use Rattle.link.specs.InPlace.{link_of, of_parts};

use crate::calls::Run;
use crate::link::Link;
use frame::{MAX_BODY, MAX_FRAME};
use refusals::Refusal;
use report::Report;
use step::Core;

// A link taken apart. Any numbers and any two arrays are parts, those too that no call leaves: on them a call promises what it
// promises on any. A call is the link's own, on the link of these parts, which goes out of this crate only as its parts again. So the
// parts are copied into each call and back; a caller that minds keeps a `Link`.
#[derive(Clone, Copy)]
pub struct Parts {
    pub core: Core,
    pub body: [u8; MAX_BODY],
    pub frame: [u8; MAX_FRAME],
}

// The parts of a link. (There is no way back for other crates: a link comes only from opening or an earlier call.)
impl From<Link> for Parts {
    ghost from_gives = { λ link parts. link ≡ link_of parts.core parts.body parts.frame };

    fn from(link: Link) -> Parts {
        let Link { core, body, frame } = link;
        Parts { core, body, frame }
    }
}

impl Parts {
    // The link of these parts, for the calls below alone.
    fn link(self) -> Link
        ensures { result ≡ of_parts self }
    {
        let Parts { core, body, frame } = self;
        Link { core, body, frame }
    }

    // One received byte.
    pub fn byte(&mut self, b: u8, line: &mut [u8], up: &mut [u8]) -> Result<Report, Refusal>
        ensures called { CallPromise passes (byte_out (rules_of self.old.core.choice) (of_parts self.old) b) (of_parts self.old) line.old up.old (record { link = of_parts self.new; answer = result }) line.new up.new }
        ensures stays { self.new.frame ≡ self.old.frame }
    {
        let mut link = self.link();
        let answer = link.byte(b, line, up);
        *self = Parts::from(link);
        answer
    }

    // A run of bytes, up to the first that has news.
    pub fn bytes(&mut self, bytes: &[u8], line: &mut [u8], up: &mut [u8]) -> Result<Run, Refusal>
        ensures called { RunPromise (run_out (rules_of self.old.core.choice) (of_parts self.old) bytes.now) (of_parts self.old) line.old up.old (record { link = of_parts self.new; answer = result }) line.new up.new }
        ensures stays { self.new.frame ≡ self.old.frame }
    {
        let mut link = self.link();
        let answer = link.bytes(bytes, line, up);
        *self = Parts::from(link);
        answer
    }

    // One tick: a millisecond has passed. Both arrays stay.
    pub fn tick(&mut self, line: &mut [u8], up: &mut [u8]) -> Result<Report, Refusal>
        ensures called { CallPromise passes (tick_out (rules_of self.old.core.choice) (of_parts self.old)) (of_parts self.old) line.old up.old (record { link = of_parts self.new; answer = result }) line.new up.new }
        ensures stays { (self.new.body ≡ self.old.body) × (self.new.frame ≡ self.old.frame) }
    {
        let mut link = self.link();
        let answer = link.tick(line, up);
        *self = Parts::from(link);
        answer
    }

    // Sends a frame of this type, command and parameters.
    pub fn send(
        &mut self,
        kind: u8,
        command: u8,
        parameters: &[u8],
        line: &mut [u8],
        up: &mut [u8],
    ) -> Result<Report, Refusal>
        ensures called { CallPromise (send_own self.old.core.job kind (length parameters.now)) (open_out (of_parts self.old) None (frame_of kind command parameters.now)) (of_parts self.old) line.old up.old (record { link = of_parts self.new; answer = result }) line.new up.new }
        ensures stays { self.new.body ≡ self.old.body }
    {
        let mut link = self.link();
        let answer = link.send(kind, command, parameters, line, up);
        *self = Parts::from(link);
        answer
    }

    // Sends a request that stays open after its ACK, until its response.
    pub fn session(
        &mut self,
        command: u8,
        parameters: &[u8],
        line: &mut [u8],
        up: &mut [u8],
    ) -> Result<Report, Refusal>
        ensures called { CallPromise (session_own self.old.core.job (length parameters.now)) (open_out (of_parts self.old) (Some command) (frame_of REQ command parameters.now)) (of_parts self.old) line.old up.old (record { link = of_parts self.new; answer = result }) line.new up.new }
        ensures stays { self.new.body ≡ self.old.body }
    {
        let mut link = self.link();
        let answer = link.session(command, parameters, line, up);
        *self = Parts::from(link);
        answer
    }

    // A fresh link, opened as it was; 15 is put out, and an open send or session is abandoned.
    pub fn restart(&mut self, line: &mut [u8], up: &mut [u8]) -> Result<Report, Refusal>
        ensures { CallPromise passes (restart_out (of_parts self.old)) (of_parts self.old) line.old up.old (record { link = of_parts self.new; answer = result }) line.new up.new }
    {
        let mut link = self.link();
        let answer = link.restart(line, up);
        *self = Parts::from(link);
        answer
    }
}
