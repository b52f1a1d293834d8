// The data frame (document 01, sections 2 and 3): built and folded. No state. Reading one is the crate `reading`.
#![tactic(auto)]

mod builder;
mod bytes;

pub use builder::build;
pub use bytes::{fold, lay};

// Section 2: a data frame is 01, Length, Type, Command, parameters, Checksum.
pub const START: u8 = 0x01;

// Type 00 is a request, 01 a response; 02 to FF are reserved.
pub const REQ: u8 = 0x00;

pub const RES: u8 = 0x01;

// Checksum is FF xor every byte from Length to the last parameter.
pub const SEED: u8 = 0xFF;

// Single bytes.
pub const ACK: u8 = 0x06;

pub const NAK: u8 = 0x15;

pub const CAN: u8 = 0x18;

// Parameters, 0 to so many.
pub const MAX_PARAMETERS: usize = 252;

// Length counts itself, Type, Command and the parameters.
pub const MIN_LENGTH: u8 = 3;

// Body bytes of a frame: Type, Command and the parameters.
pub const MAX_BODY: usize = 254;

// Bytes of a whole frame.
pub const MAX_FRAME: usize = 257;

// Section 3: room for a single byte and a frame behind it.
pub const LINE_ROOM: usize = 258;
