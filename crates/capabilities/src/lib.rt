// Capabilities RES, command 07 (document 01, section 8; 002, 7.3): read, and written.
#![tactic(auto)]

mod writer;

ghost use Rattle.std.specs.Prelude.{◌≡◌, ◌≤◌, length};
ghost use Rattle.masks.specs.Mask.{ones_in};
ghost use Rattle.capabilities.specs.Capabilities.{word, is_capabilities, capabilities_of, read_capabilities, supports};
ghost use Rattle.capabilities.specs.Promises.{OfCapabilities};

use masks::{Layout, is_marked, is_response};
use refusals::Refusal;
pub use writer::write_capabilities;

// The command.
const CAPABILITIES: u8 = 0x07;

// Where the mask begins, behind Type, Command and 8 fixed bytes; and the bytes of a body with 32 mask bytes.
const MASK_AT: usize = 10;

const LONGEST: usize = 42;

// What the 8 fixed bytes say. They are read and written place by place: a `From<[u8; 8]>` would first need an array made of a slice, with an
// `Err` that can't come.
#[derive(Clone, Copy, Debug, PartialEq, Eq)]
pub struct Identity {
    pub version: u8,
    pub revision: u8,
    pub manufacturer: u16,
    pub product_type: u16,
    pub product_id: u16,
}

#[derive(Clone, Copy, Debug, PartialEq, Eq)]
pub struct Capabilities {
    pub identity: Identity,
    // The number of supported functions.
    pub supported: u16,
}

// A number of two bytes, most significant first. (A function: the definition `word` is its promise, which three numbers cite.)
fn word(high: u8, low: u8) -> u16
    ensures { result ≡ word high low }
{
    u16::from_be_bytes([high, low])
}

// The number of one bits of a mask of at most 32 bytes.
#[tactic(auto, unfolding(masks::specs::Mask::ones_in))]
fn ones_in(mask: &[u8]) -> u16
    requires { length mask.now ≤ 32 }
    ensures { result ≡ ones_in mask.now }
{
    mask.iter().map(|byte| byte.count_ones() as u16).sum()
}

impl Layout for Capabilities {
    ghost taken = { is_capabilities };

    fn takes(body: &[u8]) -> bool {
        is_response(body, CAPABILITIES)
            && MASK_AT <= body.len()
            && body.len() <= LONGEST
            && !is_marked(&body[MASK_AT..], 256)
    }
}

// The answer to a body of the layout.
fn capabilities_of(body: &[u8]) -> Capabilities
    requires { OfCapabilities body.now }
    ensures { result ≡ capabilities_of body.now }
{
    let identity = Identity {
        version: body[2],
        revision: body[3],
        manufacturer: word(body[4], body[5]),
        product_type: word(body[6], body[7]),
        product_id: word(body[8], body[9]),
    };
    Capabilities {
        identity,
        supported: ones_in(&body[MASK_AT..]),
    }
}

// Reads the whole body.
pub fn read_capabilities(body: &[u8]) -> Result<Capabilities, Refusal>
    ensures { result ≡ read_capabilities body.now }
{
    if !Capabilities::takes(body) {
        return Err(Refusal::Form);
    }
    Ok(capabilities_of(body))
}

// Reads whether one function is supported.
pub fn supports(body: &[u8], f: u8) -> Result<bool, Refusal>
    ensures { result ≡ supports body.now f }
{
    if !Capabilities::takes(body) {
        return Err(Refusal::Form);
    }
    Ok(is_marked(&body[MASK_AT..], u16::from(f)))
}
