// Building and reading a frame.
ghost use Rattle.std.specs.Prelude.{◌≡◌};
ghost use Rattle.reading.specs.Reader.{read};
ghost use Rattle.exports.specs.Numbers as spec;
ghost use Rattle.exports.specs.Numbers.{BuiltAs};

use crate::numbers::refused_number;
use reading::Parts;

fn parts_number(parts: Parts) -> u64
    ensures { result ≡ spec.parts_number parts }
{
    65536 * u64::from(parts.kind) + 256 * u64::from(parts.command) + u64::from(parts.count)
}

// Builds a frame in the lent bytes, and answers its length.
#[unsafe(no_mangle)]
pub extern "C" fn sarnaqel_build(kind: u8, command: u8, parameters: &[u8], lent: &mut [u8]) -> u64
    ensures { BuiltAs kind command parameters.now lent.old result lent.new }
{
    frame::build(kind, command, parameters, lent).map_or_else(refused_number, u64::from)
}

// Reads the bytes as one whole frame, and answers its parts as one number.
#[unsafe(no_mangle)]
pub extern "C" fn sarnaqel_read(bytes: &[u8]) -> u64
    ensures { result ≡ spec.reading_number (read bytes.now) }
{
    reading::read(bytes).map_or_else(refused_number, parts_number)
}
