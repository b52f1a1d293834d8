// Whole inputs given to a link by value, call by call (`feeding` of `exports`). The C names have a flag beside
// the parameters, since C has no `Option`, and each its own list of them.
ghost use Rattle.std.specs.Prelude.{length};
ghost use Rattle.step.specs.Checks.{checks, passes};
ghost use Rattle.exports.specs.Feeding.{FedTo, opened, asked, heard_fed, bytes_fed, ticks_fed, runs_fed};

use exports::Way;
use link::{Link, Run};
use refusals::Refusal;
use report::Report;

// The link's own calls, to which a copy of the link goes in and from which it comes back. (One copy each way: handed through a function of
// its own that takes the link and gives it back, each call copied it three times more.)
struct ByValue;

impl Way for ByValue {
    fn byte(link: &mut Link, b: u8, line: &mut [u8], up: &mut [u8]) -> Result<Report, Refusal> {
        let mut copy = *link;
        let answer = copy.byte(b, line, up);
        *link = copy;
        answer
    }

    fn bytes(
        link: &mut Link,
        bytes: &[u8],
        line: &mut [u8],
        up: &mut [u8],
    ) -> Result<Run, Refusal> {
        let mut copy = *link;
        let answer = copy.bytes(bytes, line, up);
        *link = copy;
        answer
    }

    fn tick(link: &mut Link, line: &mut [u8], up: &mut [u8]) -> Result<Report, Refusal> {
        let mut copy = *link;
        let answer = copy.tick(line, up);
        *link = copy;
        answer
    }
}

// Runs of the input on a link prepared in this way: a session is asked for, or not, and the heard bytes are given one by one.
#[unsafe(no_mangle)]
pub extern "C" fn sarnaqel_by_value_runs(
    asks: bool,
    parameters: &[u8],
    heard: &[u8],
    input: &[u8],
    most: usize,
    line: &mut [u8],
    up: &mut [u8],
) -> u64
    ensures { FedTo (runs_fed (length input.now) (checks line.old up.old passes) most (heard_fed heard.now (asked asks parameters.now (opened line.old up.old))) input.now) result line.new up.new }
{
    exports::runs::<ByValue>(asks, parameters, heard, input, most, line, up)
}

// Every byte of the input in a call of its own, on a link prepared in this way.
#[unsafe(no_mangle)]
pub extern "C" fn sarnaqel_by_value_bytes(
    asks: bool,
    parameters: &[u8],
    heard: &[u8],
    input: &[u8],
    line: &mut [u8],
    up: &mut [u8],
) -> u64
    ensures { FedTo (bytes_fed (checks line.old up.old passes) (heard_fed heard.now (asked asks parameters.now (opened line.old up.old))) input.now) result line.new up.new }
{
    exports::bytes::<ByValue>(asks, parameters, heard, input, line, up)
}

// So many ticks on a link prepared in this way.
#[unsafe(no_mangle)]
pub extern "C" fn sarnaqel_by_value_ticks(
    asks: bool,
    parameters: &[u8],
    heard: &[u8],
    n: u64,
    line: &mut [u8],
    up: &mut [u8],
) -> u64
    ensures { FedTo (ticks_fed (checks line.old up.old passes) (heard_fed heard.now (asked asks parameters.now (opened line.old up.old))) n) result line.new up.new }
{
    exports::ticks::<ByValue>(asks, parameters, heard, n, line, up)
}
