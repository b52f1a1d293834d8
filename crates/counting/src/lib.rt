// Counting (document 01, section 9): what stands in raw bytes, many bytes at once where no frame is cut short.
#![tactic(auto)]

ghost use Rattle.std.specs.Prelude.{◌≡◌, ◌∷◌, drop, MatchOption};
ghost use Rattle.tally.specs.Tally.{added};
ghost use Rattle.counting.specs.Counting.{count};
ghost use Rattle.counting.specs.Promises.{Ahead, BeyondAt, hunting, apart, whole};

use frame::{ACK, CAN, MIN_LENGTH, NAK, REQ, RES, SEED, START};
use hearing::Hearing;
use tally::{Counts, Tally, one_more};

// A byte while hunting that begins no frame. (Its column and that of a whole frame are told here again and not by `Tally`, which is handed one
// byte at a time: to count many at once no event is made of them.)
fn count_apart(counts: &mut Counts, b: u8)
    ensures { counts.new ≡ added (apart b) counts.old }
{
    match b {
        ACK => one_more(&mut counts.ack),
        NAK => one_more(&mut counts.nak),
        CAN => one_more(&mut counts.can),
        _ => one_more(&mut counts.skipped),
    }
}

// A frame that lies whole in the bytes, by its checksum and its Type, as that came: any byte.
fn count_whole(counts: &mut Counts, kind: u8, sum: u8, check: u8)
    ensures { counts.new ≡ added (whole kind sum check) counts.old }
{
    match kind {
        _ if check != sum => one_more(&mut counts.badsum),
        REQ | RES => one_more(&mut counts.frames),
        _ => one_more(&mut counts.reserved),
    }
}

// Behind an 01: the whole frame in one stride, its body in one loop that keeps nothing, and how many bytes it took. A frame that the
// bytes cut short is left alone, and goes byte by byte: a slice has at most one at each end.
fn stride(counts: &mut Counts, rest: &[u8]) -> Option<usize>
    ensures { MatchOption result (counts.new ≡ counts.old) (λ n. BeyondAt (hunting counts.old) (1 ∷ rest.now) (hunting counts.new) n rest.now) }
{
    let length = *rest.first()?;
    if length < MIN_LENGTH {
        one_more(&mut counts.badlen);
        return Some(1);
    }
    let size = length as usize;
    if rest.len() <= size {
        return None;
    }
    let sum = frame::fold(SEED, &rest[..size]);
    count_whole(counts, rest[1], sum, rest[size]);
    Some(size + 1)
}

// At a place: one byte while hunting, or one whole frame, and the place behind it. (A place, since it alone moves from byte to byte. By a slice
// of what is left, whose start and length both move, bytes outside frames took 1.3 to 2.0 times as long; and with the bytes above 01 first up to
// 1.8 times, by where the loop came to lie.) 01 is not tested for first: LLVM would make one jump table of that test and those for the three
// single bytes, and counting long frames would take a fifth longer.
fn step(counts: &mut Counts, bytes: &[u8], at: usize) -> Option<usize>
    ensures { MatchOption result (counts.new ≡ counts.old) (λ next. BeyondAt (hunting counts.old) (drop at bytes.now) (hunting counts.new) next bytes.now) }
{
    let b = bytes.get(at)?;
    if *b <= START {
        if *b == START {
            return Some(at + 1 + stride(counts, &bytes[at + 1..])?);
        }
        one_more(&mut counts.skipped);
        return Some(at + 1);
    }
    count_apart(counts, *b);
    Some(at + 1)
}

// The counts alone, in numbers, as far as no frame is cut short: the path that nearly every byte takes. What is left is answered.
fn hunt<'a>(counts: &mut Counts, bytes: &'a [u8]) -> &'a [u8]
    ensures { Ahead (hunting counts.old) bytes.now (hunting counts.new) result.now }
{
    let mut at = 0;
    while let Some(next) = step(counts, bytes, at) {
        at = next;
    }
    &bytes[at..]
}

// The same of a tally that hunts. Inside a frame all is left.
fn hunt_on<'a>(tally: &mut Tally, bytes: &'a [u8]) -> &'a [u8]
    ensures { Ahead tally.old bytes.now tally.new result.now }
{
    match tally.hearing {
        Hearing::Hunting => hunt(&mut tally.counts, bytes),
        _ => bytes,
    }
}

// The tally after these bytes. Where hunting goes no further, one byte is heard as the link hears it.
pub fn count(tally: &mut Tally, bytes: &[u8])
    ensures { tally.new ≡ count tally.old bytes.now }
{
    let mut rest = bytes;
    while let Some((b, next)) = hunt_on(tally, rest).split_first() {
        tally.count_byte(*b);
        rest = next;
    }
}
