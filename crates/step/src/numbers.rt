// The numbers of a link: all of it but the half-received body and the held frame.
ghost use Rattle.std.specs.Prelude.{◌≡◌};
ghost use Rattle.step.specs.Core.{fresh_core};

use hearing::Hearing;
use job::Job;
use rules::Choice;

#[derive(Clone, Copy, Debug, PartialEq, Eq)]
pub struct Core {
    pub hearing: Hearing,
    pub job: Job,
    // The run of bad sums.
    pub bad: u8,
    // What the link was opened as.
    pub choice: Choice,
    // The length of the held frame.
    pub size: u16,
}

impl Core {
    // Those of a fresh link (section 5), opened with this choice.
    pub fn fresh(choice: Choice) -> Self
        ensures { result ≡ fresh_core choice }
    {
        Core {
            hearing: Hearing::Hunting,
            job: Job::Idle,
            bad: 0,
            choice,
            size: 0,
        }
    }
}
