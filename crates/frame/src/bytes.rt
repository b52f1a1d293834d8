// Copying and folding bytes. A frame is built by one loop that does both (`builder.rt`).
ghost use Rattle.std.specs.Prelude.{◌≡◌};
ghost use Rattle.frame.specs.Bytes as spec;
ghost use Rattle.frame.specs.Promises.{Lay};

// Copies the first n bytes of src over dst from `at`, and says whether all of them were there and fitted; if not, nothing is copied.
// n stands beside src, and the answer is a bool, since it promises so of an n that src lacks (`lay_determined`).
pub fn lay(src: &[u8], n: usize, dst: &mut [u8], at: usize) -> bool
    ensures { Lay src.now n dst.old at result dst.new }
{
    if src.len() < n || dst.len() < at || dst.len() - at < n {
        return false;
    }
    dst[at..at + n].copy_from_slice(&src[..n]);
    true
}

// The xor of acc and every byte of s. (By the iterator's own `fold` counting took 1.17 to 1.33 times the C loop in mix A, where its bar is 1.25, and
// by this loop 1.02.)
pub fn fold(acc: u8, s: &[u8]) -> u8
    ensures { result ≡ spec.fold acc s.now }
{
    let mut sum = acc;
    for byte in s {
        sum ^= *byte;
    }
    sum
}
