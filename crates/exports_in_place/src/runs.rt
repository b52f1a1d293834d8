// Whole inputs given to a link that stays where it is, call by call (`feeding` of `exports`). The C names have a flag beside
// the parameters, since C has no `Option`, and each its own list of them.
ghost use Rattle.std.specs.Prelude.{length};
ghost use Rattle.step.specs.Checks.{checks, passes};
ghost use Rattle.exports.specs.Feeding.{FedTo, opened, asked, heard_fed, bytes_fed, ticks_fed, runs_fed};

use exports::Way;
use link::{Link, Run};
use refusals::Refusal;
use report::Report;

// The link's own calls.
struct InPlace;

impl Way for InPlace {
    fn byte(link: &mut Link, b: u8, line: &mut [u8], up: &mut [u8]) -> Result<Report, Refusal> {
        link.byte(b, line, up)
    }

    fn bytes(
        link: &mut Link,
        bytes: &[u8],
        line: &mut [u8],
        up: &mut [u8],
    ) -> Result<Run, Refusal> {
        link.bytes(bytes, line, up)
    }

    fn tick(link: &mut Link, line: &mut [u8], up: &mut [u8]) -> Result<Report, Refusal> {
        link.tick(line, up)
    }
}

// Runs of the input on a link prepared in this way: a session is asked for, or not, and the heard bytes are given one by one.
#[unsafe(no_mangle)]
pub extern "C" fn sarnaqel_runs(
    asks: bool,
    parameters: &[u8],
    heard: &[u8],
    input: &[u8],
    most: usize,
    line: &mut [u8],
    up: &mut [u8],
) -> u64
    ensures { FedTo (runs_fed (length input.now) (checks line.old up.old passes) most (heard_fed heard.now (asked asks parameters.now (opened line.old up.old))) input.now) result line.new up.new }
{
    exports::runs::<InPlace>(asks, parameters, heard, input, most, line, up)
}

// Every byte of the input in a call of its own, on a link prepared in this way.
#[unsafe(no_mangle)]
pub extern "C" fn sarnaqel_bytes(
    asks: bool,
    parameters: &[u8],
    heard: &[u8],
    input: &[u8],
    line: &mut [u8],
    up: &mut [u8],
) -> u64
    ensures { FedTo (bytes_fed (checks line.old up.old passes) (heard_fed heard.now (asked asks parameters.now (opened line.old up.old))) input.now) result line.new up.new }
{
    exports::bytes::<InPlace>(asks, parameters, heard, input, line, up)
}

// So many ticks on a link prepared in this way.
#[unsafe(no_mangle)]
pub extern "C" fn sarnaqel_ticks(
    asks: bool,
    parameters: &[u8],
    heard: &[u8],
    n: u64,
    line: &mut [u8],
    up: &mut [u8],
) -> u64
    ensures { FedTo (ticks_fed (checks line.old up.old passes) (heard_fed heard.now (asked asks parameters.now (opened line.old up.old))) n) result line.new up.new }
{
    exports::ticks::<InPlace>(asks, parameters, heard, n, line, up)
}
