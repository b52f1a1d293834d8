// Node list RES, command 02 (document 01, section 8; 002, 7.4): read, and written.
#![tactic(auto)]

mod writer;

ghost use Rattle.std.specs.Prelude.{◌≡◌, ◌≤◌, length};
ghost use Rattle.nodes.specs.Nodes as spec;
ghost use Rattle.nodes.specs.Nodes.{is_node_list, ReadNodes};
ghost use Rattle.nodes.specs.Promises.{OfNodeList, Fill, ListNodes};

use masks::{Layout, is_marked, is_response};
use refusals::Refusal;
pub use writer::write_nodes;

// The command.
const NODE_LIST: u8 = 0x02;

// The bytes of a mask, as a list counts them, and of a body with a mask and without.
const NODE_MASK: u8 = 29;

const FULL_LIST: usize = 36;

const EMPTY_LIST: usize = 7;

// Node k, 1 to 232; the list needs room for as many.
const LAST_NODE: u8 = 232;

pub const LIST_ROOM: usize = 232;

// What the bytes around the mask say.
#[derive(Clone, Copy, Debug, PartialEq, Eq)]
pub struct Controller {
    pub version: u8,
    pub capabilities: u8,
    pub chip_type: u8,
    pub chip_version: u8,
}

#[derive(Clone, Copy, Debug, PartialEq, Eq)]
pub struct NodeList {
    pub controller: Controller,
    // The nodes are the first so many bytes of the lent list (no heap: the caller lends it, and `ReadNodes` says what it holds).
    pub count: u8,
}

impl Layout for NodeList {
    ghost taken = { is_node_list };

    fn takes(body: &[u8]) -> bool {
        is_response(body, NODE_LIST)
            && match body.len() {
                FULL_LIST => body[4] == NODE_MASK,
                EMPTY_LIST => body[4] == 0,
                _ => false,
            }
    }
}

// Writes the nodes that the mask marks over the first bytes of the list, and answers how many they are.
// `n` is counted by hand: the nodes are in the list that the caller lends (no heap), and a `filter` with a `zip` over it would not say how many.
fn list_nodes(mask: &[u8], list: &mut [u8]) -> u8
    requires { spec.LIST_ROOM ≤ length list.old }
    ensures { ListNodes mask.now list.old result list.new }
{
    let mut n: u8 = 0;
    for k in 1..=LAST_NODE {
        if is_marked(mask, u16::from(k)) {
            list[n as usize] = k;
            n += 1;
        }
    }
    n
}

// Lists the nodes of a body of one of the layouts.
fn fill(body: &[u8], list: &mut [u8]) -> NodeList
    requires { (spec.LIST_ROOM ≤ length list.old) × OfNodeList body.now }
    ensures { Fill body.now list.old result list.new }
{
    let end = body[4] as usize + 5;
    let controller = Controller {
        version: body[2],
        capabilities: body[3],
        chip_type: body[end],
        chip_version: body[end + 1],
    };
    NodeList {
        controller,
        count: list_nodes(&body[5..end], list),
    }
}

// Reads the whole body, and lists its nodes. Bytes of the list beyond them stay; a refusal leaves all of them.
pub fn read_nodes(body: &[u8], list: &mut [u8]) -> Result<NodeList, Refusal>
    ensures { ReadNodes body.now list.old result list.new }
{
    if list.len() < LIST_ROOM {
        return Err(Refusal::Room);
    }
    if !NodeList::takes(body) {
        return Err(Refusal::Form);
    }
    Ok(fill(body, list))
}
