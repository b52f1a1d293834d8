// Writing a response, as the body that is handed up (document 02, P5). What is common to the writers: the room and the last step.
ghost use Rattle.std.specs.Prelude.{◌≡◌, ℕ, Bool, List, ◌++◌};
ghost use Rattle.masks.specs.Written.{Write};
ghost use Rattle.masks.specs.Promises.{carried};

use frame::{MAX_BODY, lay};
use refusals::Refusal;

// Writes a body over the first of the lent bytes, and answers its length. Whether its reader takes it is asked before: what it would refuse is FORM, after ROOM.
// `reads` stands beside the body since it may not change: the promise takes any of the two together (`Write (carried reads body)`).
// No frame carries a body of more than 254 bytes, so a longer one is FORM too. Bytes beyond the body stay; a refusal leaves all of them.
pub fn write_body(reads: bool, body: &[u8], lent: &mut [u8]) -> Result<u16, Refusal>
    ensures { Write (carried reads body.now) body.now lent.old result lent.new }
{
    let n = body.len();
    if lent.len() < MAX_BODY {
        return Err(Refusal::Room);
    }
    if MAX_BODY < n || !reads {
        return Err(Refusal::Form);
    }
    lent[..n].copy_from_slice(body);
    Ok(n as u16)
}

// What the reader of a response takes: its own test of a body.
pub trait Layout {
    ghost taken: { List ℕ → Bool };

    fn takes(body: &[u8]) -> bool
        ensures { result ≡ taken body.now };
}

// Writes the body of these three parts, one behind the other, if its reader takes it. They are joined in bytes of its own, so that the reader can be
// asked first: what no frame carries is FORM.
pub fn write_parts<L: Layout>(
    front: &[u8],
    mask: &[u8],
    end: &[u8],
    lent: &mut [u8],
) -> Result<u16, Refusal>
    ensures { Write (carried (L.taken (front.now ++ mask.now ++ end.now)) (front.now ++ mask.now ++ end.now)) (front.now ++ mask.now ++ end.now) lent.old result lent.new }
{
    let (f, m, e) = (front.len(), mask.len(), end.len());
    if MAX_BODY < f || MAX_BODY - f < m || MAX_BODY - f - m < e {
        return write_body(false, front, lent);
    }
    let mut made = [0; MAX_BODY];
    // `lay` and not `copy_from_slice`: with that into parts of this array the proof didn't close (`returns`).
    lay(front, f, &mut made, 0);
    lay(mask, m, &mut made, f);
    lay(end, e, &mut made, f + m);
    let body = &made[..f + m + e];
    write_body(L::takes(body), body, lent)
}
