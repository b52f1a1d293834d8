// Which of the two ends of a play a line asks; and bytes that are kept whole or not at all, as what an end has put out, or a line.
ghost use Rattle.std.specs.Prelude.{◌≡◌, ◌≤◌, length, replicate, take};
ghost use Rattle.orders.specs.Ends.{CallAt, KeepWhole, none_pending};

use frame::lay;

// Where the call of a line of n bytes begins: behind `module `, which asks it of the stand-in, else at the front. The second clause lets a caller take that part with no more proof.
// It answers a place and no role, and takes n beside the text, since its promise is of these (`CallAt`).
pub fn call_at(text: &[u8], n: usize) -> usize
    ensures call_at { CallAt text.now n result }
    ensures upper_bound { (result ≤ n) × (result ≤ length text.now) }
{
    if 7 <= n && text.starts_with(b"module ") {
        7
    } else {
        0
    }
}

// How many bytes are kept in some room, as those that an end has put out since the last pass, or those of a line.
// A flag beside the count and no `Option`: behind a loss what was kept before is kept still (`kept_with`).
#[derive(Clone, Copy, Debug, PartialEq, Eq)]
pub struct Pending {
    // How many bytes are kept.
    pub count: usize,
    // Whether some bytes did not fit, and were not kept.
    pub is_lost: bool,
}

impl Pending {
    // Nothing is kept, and nothing was lost.
    pub fn nothing() -> Self
        ensures { result ≡ none_pending }
    {
        Pending {
            count: 0,
            is_lost: false,
        }
    }

    // Keeps the first n bytes behind those that are kept already: whole or not at all.
    // The promise says what becomes of any count, and of an n beyond the bytes that there are: so n stands beside them, and this is no vector of the kit (`KeepWhole`).
    pub fn keep_whole(&mut self, bytes: &[u8], n: usize, kept: &mut [u8])
        ensures { KeepWhole self.old bytes.now n kept.old self.new kept.new }
    {
        if lay(bytes, n, kept, self.count) {
            self.count += n;
        } else {
            self.is_lost = true;
        }
    }
}

// A room of N for the bytes that wait.
#[derive(Clone, Copy, Debug)]
pub struct Store<const N: usize> {
    pub room: [u8; N],
    pub pending: Pending,
}

impl<const N: usize> Store<N> {
    // Nothing waits in it.
    pub fn empty() -> Self
        ensures pending { result.pending ≡ none_pending }
        ensures room { result.room ≡ replicate N 0 }
    {
        Store {
            room: [0; N],
            pending: Pending::nothing(),
        }
    }

    // Nothing waits from here on.
    pub fn clear(&mut self)
        ensures pending { self.new.pending ≡ none_pending }
        ensures room { self.new.room ≡ self.old.room }
    {
        self.pending = Pending::nothing();
    }

    // The bytes that wait.
    pub fn bytes(&self) -> &[u8]
        ensures { result.now ≡ take self.now.pending.count self.now.room }
    {
        &self.room[..self.pending.count.min(N)]
    }

    // Keeps the first n bytes behind those that wait already, where all fit.
    pub fn keep_whole(&mut self, bytes: &[u8], n: usize)
        ensures { KeepWhole self.old.pending bytes.now n self.old.room self.new.pending self.new.room }
    {
        self.pending.keep_whole(bytes, n, &mut self.room);
    }
}
