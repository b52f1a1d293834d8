// Writing the response (document 02, P5), for the module's end of the link.
ghost use Rattle.std.specs.Prelude.{◌≡◌, []};
ghost use Rattle.capabilities.specs.Writer.{capabilities_body, WriteCapabilities};

use crate::{CAPABILITIES, Capabilities, Identity, MASK_AT};
use frame::RES;
use masks::write_parts;
use refusals::Refusal;

// What stands before the mask. A number of two bytes has its most significant first.
fn fixed_bytes(identity: Identity) -> [u8; MASK_AT]
    ensures { result ≡ capabilities_body identity [] }
{
    let manufacturer = identity.manufacturer.to_be_bytes();
    let product_type = identity.product_type.to_be_bytes();
    let product_id = identity.product_id.to_be_bytes();
    [
        RES,
        CAPABILITIES,
        identity.version,
        identity.revision,
        manufacturer[0],
        manufacturer[1],
        product_type[0],
        product_type[1],
        product_id[0],
        product_id[1],
    ]
}

// Writes the body of these values over the first of the lent bytes, if its reader takes it. Bytes beyond it stay; a refusal leaves all of them.
pub fn write_capabilities(identity: Identity, mask: &[u8], lent: &mut [u8]) -> Result<u16, Refusal>
    ensures { WriteCapabilities (capabilities_body identity mask.now) lent.old result lent.new }
{
    write_parts::<Capabilities>(&fixed_bytes(identity), mask, &[], lent)
}
