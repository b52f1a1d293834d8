// The bytes of an order.
ghost use Rattle.std.specs.Prelude.{◌≡◌, drop};
ghost use Rattle.orders.specs.Bytes.{spelt_at};

// The byte of an order at a place, 0 where there is none.
pub fn spelt_at(bytes: &[u8], at: usize) -> u8
    ensures { result ≡ spelt_at bytes.now at }
{
    bytes.get(at).copied().unwrap_or(0)
}

// What follows the first n bytes, nothing where there are fewer.
pub fn behind(bytes: &[u8], n: usize) -> &[u8]
    ensures { result.now ≡ drop n bytes.now }
{
    &bytes[n.min(bytes.len())..]
}
