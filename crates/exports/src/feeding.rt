// A link that is fed with whole inputs, call by call. What the calls told comes back as one number. Each measured call has one place
// here, and a module for each way, since LLVM inlines what is called once. The measured calls go to a link that other calls prepared, so
// LLVM knows nothing of its state.
ghost use Rattle.std.specs.Prelude.{◌≡◌, length};
ghost use Rattle.rules.specs.Rules.{rules_of};
ghost use Rattle.step.specs.Checks.{checks, passes};
ghost use Rattle.link.specs.Out.{byte_out, tick_out, run_out};
ghost use Rattle.link.specs.Calls.{CallPromise, RunPromise};
ghost use Rattle.exports.specs.Feeding.{FedTo, at, opened, asked, heard_fed, bytes_fed, ticks_fed, runs_fed};

use crate::numbers::{Tale, answer_number, mix, tale_of};
use link::{Link, Run};
use refusals::Refusal;
use report::Report;

// A way to make the measured calls of a link. Whichever it is, a call promises what the link's own does.
pub trait Way {
    fn byte(link: &mut Link, b: u8, line: &mut [u8], up: &mut [u8]) -> Result<Report, Refusal>
        ensures { CallPromise passes (byte_out (rules_of link.old.core.choice) link.old b) link.old line.old up.old (record { link = link.new; answer = result }) line.new up.new };

    fn bytes(link: &mut Link, bytes: &[u8], line: &mut [u8], up: &mut [u8]) -> Result<Run, Refusal>
        ensures { RunPromise (run_out (rules_of link.old.core.choice) link.old bytes.now) link.old line.old up.old (record { link = link.new; answer = result }) line.new up.new };

    fn tick(link: &mut Link, line: &mut [u8], up: &mut [u8]) -> Result<Report, Refusal>
        ensures { CallPromise passes (tick_out (rules_of link.old.core.choice) link.old) link.old line.old up.old (record { link = link.new; answer = result }) line.new up.new };
}

// Every byte in a call of its own.
fn bytes_fed<W: Way>(link: &mut Link, input: &[u8], line: &mut [u8], up: &mut [u8]) -> u64
    ensures { bytes_fed (checks line.old up.old passes) (at link.old line.old up.old 0) input.now ≡ at link.new line.new up.new result }
{
    let mut sum = 0;
    for b in input {
        let answer = W::byte(link, *b, line, up);
        sum = mix(sum, answer_number(answer));
    }
    sum
}

// Runs of at most so many bytes, until all are taken or a run takes none. (A `while`, and not `chunks`: a run may take fewer bytes than
// it is given.)
fn runs_fed<W: Way>(
    link: &mut Link,
    input: &[u8],
    most: usize,
    line: &mut [u8],
    up: &mut [u8],
) -> u64
    ensures { FedTo (runs_fed (length input.now) (checks line.old up.old passes) most (at link.old line.old up.old 0) input.now) result line.new up.new }
{
    let mut sum = 0;
    let mut rest = input;
    while !rest.is_empty() {
        let part = &rest[..rest.len().min(most)];
        let run = W::bytes(link, part, line, up);
        let Tale { number, taken } = tale_of(run);
        sum = mix(mix(sum, number), taken as u64);
        if taken == 0 {
            return sum;
        }
        rest = &rest[taken..];
    }
    sum
}

// So many ticks.
fn ticks_fed<W: Way>(link: &mut Link, n: u64, line: &mut [u8], up: &mut [u8]) -> u64
    ensures { FedTo (ticks_fed (checks line.old up.old passes) (at link.old line.old up.old 0) n) result line.new up.new }
{
    let mut sum = 0;
    for _ in 0..n {
        let answer = W::tick(link, line, up);
        sum = mix(sum, answer_number(answer));
    }
    sum
}

// A link made ready: on a fresh one a session is asked for, or not, and then it hears these bytes, each in a call of its own.
// `asks`, the parameters and these bytes stand apart, here and below, as the C names have them: one value of them would be made anew in
// each of those six, and the definition `asked` is of the two.
fn ready<W: Way>(
    asks: bool,
    parameters: &[u8],
    heard: &[u8],
    line: &mut [u8],
    up: &mut [u8],
) -> Link
    ensures { heard_fed heard.now (asked asks parameters.now (opened line.old up.old)) ≡ at result line.new up.new 0 }
{
    let mut link = Link::open();
    if asks {
        let _ = link.session(7, parameters, line, up);
    }
    bytes_fed::<W>(&mut link, heard, line, up);
    link
}

// Runs of the input on a link made ready in this way.
pub fn runs<W: Way>(
    asks: bool,
    parameters: &[u8],
    heard: &[u8],
    input: &[u8],
    most: usize,
    line: &mut [u8],
    up: &mut [u8],
) -> u64
    ensures { FedTo (runs_fed (length input.now) (checks line.old up.old passes) most (heard_fed heard.now (asked asks parameters.now (opened line.old up.old))) input.now) result line.new up.new }
{
    let mut link = ready::<W>(asks, parameters, heard, line, up);
    runs_fed::<W>(&mut link, input, most, line, up)
}

// Every byte of the input in a call of its own, on a link made ready in this way.
pub fn bytes<W: Way>(
    asks: bool,
    parameters: &[u8],
    heard: &[u8],
    input: &[u8],
    line: &mut [u8],
    up: &mut [u8],
) -> u64
    ensures { FedTo (bytes_fed (checks line.old up.old passes) (heard_fed heard.now (asked asks parameters.now (opened line.old up.old))) input.now) result line.new up.new }
{
    let mut link = ready::<W>(asks, parameters, heard, line, up);
    bytes_fed::<W>(&mut link, input, line, up)
}

// So many ticks on a link made ready in this way.
pub fn ticks<W: Way>(
    asks: bool,
    parameters: &[u8],
    heard: &[u8],
    n: u64,
    line: &mut [u8],
    up: &mut [u8],
) -> u64
    ensures { FedTo (ticks_fed (checks line.old up.old passes) (heard_fed heard.now (asked asks parameters.now (opened line.old up.old))) n) result line.new up.new }
{
    let mut link = ready::<W>(asks, parameters, heard, line, up);
    ticks_fed::<W>(&mut link, n, line, up)
}
