// Reading a whole frame (sections 2 and 3).
ghost use Rattle.std.specs.Prelude.{◌≡◌, ◌≤◌};
ghost use Rattle.frame.specs.Frame as frames;
ghost use Rattle.reading.specs.Reader as spec;

use frame::{MIN_LENGTH, RES, SEED, START, fold};
use refusals::Refusal;

// What a whole frame says. Its parameters are the `count` bytes from the fifth on: C takes these three numbers (`sarnaqel_read`) and no
// slice of them, and Type as the byte that it is.
#[derive(Clone, Copy, Debug, PartialEq, Eq)]
pub struct Parts {
    pub kind: u8,
    pub command: u8,
    pub count: u8,
}

// What is left to check in a frame that is as long as its Length says. It takes numbers alone, so that LLVM inlines it.
fn parts_of(kind: u8, command: u8, len: u8, sum: u8, last: u8) -> Result<Parts, Refusal>
    requires { frames.MIN_LENGTH ≤ len }
    ensures { result ≡ spec.parts_of kind command len sum last }
{
    if sum != last {
        return Err(Refusal::Sum);
    }
    if RES < kind {
        return Err(Refusal::Kind);
    }
    Ok(Parts {
        kind,
        command,
        count: len - 3,
    })
}

// Reads the bytes as one whole frame.
pub fn read(bytes: &[u8]) -> Result<Parts, Refusal>
    ensures { result ≡ spec.read bytes.now }
{
    let n = bytes.len();
    let Some((first, behind)) = bytes.split_first() else {
        return Err(Refusal::Short);
    };
    if *first != START {
        return Err(Refusal::Start);
    }
    let Some(length) = behind.first() else {
        return Err(Refusal::Short);
    };
    let whole = usize::from(*length) + 2;
    if *length < MIN_LENGTH {
        return Err(Refusal::Length);
    }
    if n < whole {
        return Err(Refusal::Short);
    }
    if whole < n {
        return Err(Refusal::Tail);
    }
    let end = whole - 1;
    let sum = fold(SEED, &bytes[1..end]);
    parts_of(bytes[2], bytes[3], *length, sum, bytes[end])
}
