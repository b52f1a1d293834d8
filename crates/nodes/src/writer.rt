// Writing the response (document 02, P5), for the module's end of the link.
ghost use Rattle.nodes.specs.Writer.{node_body, WriteNodes};

use crate::{Controller, EMPTY_LIST, NODE_LIST, NodeList};
use frame::{MAX_BODY, RES};
use masks::write_parts;
use refusals::Refusal;

// Writes the body of these values over the first of the lent bytes, if its reader takes it. Bytes beyond it stay; a refusal leaves all of them.
// A mask that no frame has room for is cut, since its length is a byte: no reader takes so long a body.
pub fn write_nodes(controller: Controller, mask: &[u8], lent: &mut [u8]) -> Result<u16, Refusal>
    ensures { WriteNodes (node_body controller mask.now) lent.old result lent.new }
{
    let n = mask.len().min(MAX_BODY - EMPTY_LIST);
    let Controller {
        version,
        capabilities,
        chip_type,
        chip_version,
    } = controller;
    let front = [RES, NODE_LIST, version, capabilities, n as u8];
    write_parts::<NodeList>(&front, &mask[..n], &[chip_type, chip_version], lent)
}
