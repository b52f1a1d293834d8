// Counting an input.
ghost use Rattle.std.specs.Prelude.{◌≡◌};
ghost use Rattle.tally.specs.Tally.{fresh};
ghost use Rattle.counting.specs.Counting.{count};
ghost use Rattle.exports.specs.Numbers.{counts_of};

use tally::Tally;

// The counts of the input, in the order printed, and the bytes of an unfinished frame behind them: by place, since C has no names for them.
#[unsafe(no_mangle)]
pub extern "C" fn sarnaqel_count(input: &[u8], counts: &mut [u64; 9])
    ensures { counts.new ≡ counts_of (count fresh input.now) }
{
    let mut tally = Tally::fresh();
    counting::count(&mut tally, input);
    let k = tally.counts;
    let open = tally.open_bytes();
    *counts = [
        k.ack, k.nak, k.can, k.frames, k.badsum, k.badlen, k.reserved, k.skipped, open,
    ];
}
