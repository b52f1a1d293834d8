// Building a frame (sections 2 and 3).
ghost use Rattle.std.specs.Prelude.{◌≡◌, ◌+◌, ◌≤◌, length};
ghost use Rattle.std.proofs.Math.Seq.{paste};
ghost use Rattle.frame.specs.Builder.{Build};
ghost use Rattle.frame.specs.Bytes.{fold, over};
ghost use Rattle.frame.specs.Frame as spec;

use crate::{MAX_PARAMETERS, RES, SEED, START};
use refusals::Refusal;

// Copies src over dst from `at`, each byte folded in as it is written, and answers the xor of acc and all of them.
// It is no `copy_from_slice` and a `fold` behind it: P3 of document 02 wants one pass, which `checksum-one-byte-fewer` tries.
fn lay_folding(acc: u8, src: &[u8], dst: &mut [u8], at: usize) -> u8
    requires { at + length src.now ≤ length dst.old }
    ensures { (result ≡ fold acc src.now) × (dst.new ≡ paste dst.old at src.now (length src.now)) }
{
    let mut sum = acc;
    for (j, byte) in src.iter().enumerate() {
        sum ^= *byte;
        dst[at + j] = *byte;
    }
    sum
}

// Writes the frame of these parts over the first of the lent bytes. Each byte is written once, and from Length on folded in as it is written: nothing is read back.
fn write(kind: u8, command: u8, parameters: &[u8], lent: &mut [u8])
    requires { (length parameters.now ≤ spec.MAX_PARAMETERS) × (length parameters.now + 5 ≤ length lent.old) }
    ensures { lent.new ≡ over (spec.frame_of kind command parameters.now) lent.old }
{
    let n = parameters.len();
    let length = (n + 3) as u8;
    lent[0] = START;
    lent[1] = length;
    lent[2] = kind;
    lent[3] = command;
    let head = SEED ^ length ^ kind ^ command;
    let sum = lay_folding(head, parameters, lent, 4);
    lent[n + 4] = sum;
}

// Builds the frame of these parts in the lent bytes, and answers its length: it stands in the first of them. Bytes beyond it stay; a
// refusal leaves all of them. Type is any byte, no enum: 02 to FF are asked for too, and are KIND (`Build`). They stay three, since `frame_of` is of three.
// The caller lends the room, so a length and no slice is answered.
// `send_checks` of `step` tests KIND and LONG too: a function for the two would be longer than the four lines that it saves.
pub fn build(kind: u8, command: u8, parameters: &[u8], lent: &mut [u8]) -> Result<u16, Refusal>
    ensures { Build kind command parameters.now lent.old result lent.new }
{
    let n = parameters.len();
    if RES < kind {
        return Err(Refusal::Kind);
    }
    if MAX_PARAMETERS < n {
        return Err(Refusal::Long);
    }
    if lent.len() < n + 5 {
        return Err(Refusal::Room);
    }
    write(kind, command, parameters, lent);
    Ok((n + 5) as u16)
}
