// Lent buffers: a pattern stands in them before each call, so that a byte written without being reported shows.
ghost use Rattle.std.specs.Prelude.{◌≡◌, min, ◌≤◌, length};
ghost use Rattle.orders.specs.Lent as spec;

// The pattern's byte at a place. The remainder by 251 is taken of 16 bits, which a processor does for many places at once.
fn mark(i: usize) -> u8
    ensures { result ≡ spec.mark i }
{
    ((i % 65536) as u16 % 251) as u8 + 1
}

// Puts the pattern into all of a buffer.
pub fn fill(lent: &mut [u8])
    ensures { lent.new ≡ spec.pattern (length lent.old) }
{
    // not over `iter_mut().enumerate()`: of an adapter of `iter_mut` no proof knows what it wrote
    for i in 0..lent.len() {
        lent[i] = mark(i);
    }
}

// Whether a byte beyond the first n is not the pattern's. It does not stop early, as `any` would, so that many bytes are compared at once.
// (By `fold` over `enumerate` and `skip` it would not either, but place and flag go as a pair more: no plainer.)
pub fn is_spilled(lent: &[u8], n: usize) -> bool
    ensures { result ≡ spec.is_spilled lent.now n }
{
    let mut differ = false;
    for i in n..lent.len() {
        differ |= lent[i] != mark(i);
    }
    differ
}

// Makes a buffer as it was before a call that reported its first n bytes.
pub fn restore(lent: &mut [u8], n: usize)
    ensures { lent.new ≡ spec.pattern (length lent.old) }
{
    let told = within(n, lent);
    if is_spilled(lent, told) {
        fill(lent);
    } else {
        fill(&mut lent[..told]);
    }
}

// The size of the part of a buffer to lend: at most all of it. The second clause lets a caller take that part with no more proof.
pub fn within(n: usize, lent: &[u8]) -> usize
    ensures value { result ≡ min n (length lent.now) }
    ensures upper_bound { result ≤ length lent.now }
{
    n.min(lent.len())
}
