// The table of verbs: a row for each, with its name, what it asks for, the size of the buffer that its call is lent, and the words behind the name. Adding a verb is a row here, and an arm where its call is made: for the calls on frames and on bodies in calls.rt, for all others in crates/linkplay/src.
ghost use Rattle.std.specs.Prelude.{◌≡◌, Some, IfSome};
ghost use Rattle.script.specs.Table.{call_name};

use crate::word::Word;
use crate::word::Word::{Byte, Number, Room, Size};
use frame::{MAX_BODY, MAX_FRAME};
use orders::LinkVerb;
use rules::Mode;
use std::fmt;

// The calls on frames and on command bodies.
#[derive(Clone, Copy, Debug, PartialEq, Eq)]
pub enum Call {
    Build,
    Read,
    Capabilities,
    Nodes,
    Timeouts,
    OldTimeouts,
    WriteCapabilities,
    WriteNodes,
    WriteTimeouts,
}

// The name that it answers under. Where a room of its own is lent that is the plain one.
impl fmt::Display for Call {
    ghost output = { λ call. Some (call_name call) };

    fn fmt<W: fmt::Write>(&self, f: &mut fmt::Formatter<W>) -> fmt::Result {
        f.write_str(match self {
            Call::Build => "build",
            Call::Read => "read",
            Call::Capabilities => "capabilities",
            Call::Nodes => "nodes",
            Call::Timeouts => "timeouts",
            Call::OldTimeouts => "timeoutsres",
            Call::WriteCapabilities => "writecapabilities",
            Call::WriteNodes => "writenodes",
            Call::WriteTimeouts => "writetimeouts",
        })
    }
}

// Who carries an order out.
#[derive(Clone, Copy)]
pub enum Verb {
    Link(LinkVerb),
    // A fresh link for an end: with a mode, or without a choice.
    Open(Option<Mode>),
    // The sizes of the lent buffers.
    Room,
    // Each end is given what the other put out.
    Pass,
    Call(Call),
}

#[derive(Clone, Copy)]
pub(crate) struct Row {
    pub name: &'static [u8],
    pub verb: Verb,
    // The size that is lent where a line names none. 0 is a size as others: a call that is lent no byte needs no case of its own.
    pub room: usize,
    pub words: &'static [Word],
    // Whether any further bytes may follow.
    pub has_more: bool,
}

static VERBS: [Row; 27] = [
    Row {
        name: b"send",
        verb: Verb::Link(LinkVerb::Send),
        room: 0,
        words: &[Byte, Byte],
        has_more: true,
    },
    Row {
        name: b"session",
        verb: Verb::Link(LinkVerb::Session),
        room: 0,
        words: &[Byte],
        has_more: true,
    },
    Row {
        name: b"byte",
        verb: Verb::Link(LinkVerb::Byte),
        room: 0,
        words: &[Byte],
        has_more: false,
    },
    Row {
        name: b"bytes",
        verb: Verb::Link(LinkVerb::Bytes),
        room: 0,
        words: &[],
        has_more: true,
    },
    Row {
        name: b"tick",
        verb: Verb::Link(LinkVerb::Tick),
        room: 0,
        words: &[],
        has_more: false,
    },
    Row {
        name: b"ticks",
        verb: Verb::Link(LinkVerb::Ticks),
        room: 0,
        words: &[Number],
        has_more: false,
    },
    Row {
        name: b"restart",
        verb: Verb::Link(LinkVerb::Restart),
        room: 0,
        words: &[],
        has_more: false,
    },
    Row {
        name: b"open",
        verb: Verb::Open(None),
        room: 0,
        words: &[],
        has_more: false,
    },
    Row {
        name: b"opensooner",
        verb: Verb::Open(Some(Mode::Sooner)),
        room: 0,
        words: &[],
        has_more: false,
    },
    Row {
        name: b"openspaced",
        verb: Verb::Open(Some(Mode::Spaced)),
        room: 0,
        words: &[],
        has_more: false,
    },
    Row {
        name: b"room",
        verb: Verb::Room,
        room: 0,
        words: &[Room, Size],
        has_more: false,
    },
    Row {
        name: b"pass",
        verb: Verb::Pass,
        room: 0,
        words: &[],
        has_more: false,
    },
    Row {
        name: b"build",
        verb: Verb::Call(Call::Build),
        room: MAX_FRAME,
        words: &[Byte, Byte],
        has_more: true,
    },
    Row {
        name: b"buildroom",
        verb: Verb::Call(Call::Build),
        room: MAX_FRAME,
        words: &[Room, Byte, Byte],
        has_more: true,
    },
    Row {
        name: b"read",
        verb: Verb::Call(Call::Read),
        room: 0,
        words: &[],
        has_more: true,
    },
    Row {
        name: b"capabilities",
        verb: Verb::Call(Call::Capabilities),
        room: 255,
        words: &[],
        has_more: true,
    },
    Row {
        name: b"nodes",
        verb: Verb::Call(Call::Nodes),
        room: 232,
        words: &[],
        has_more: true,
    },
    Row {
        name: b"nodesroom",
        verb: Verb::Call(Call::Nodes),
        room: 232,
        words: &[Room],
        has_more: true,
    },
    Row {
        name: b"timeouts",
        verb: Verb::Call(Call::Timeouts),
        room: 7,
        words: &[Number, Number],
        has_more: false,
    },
    Row {
        name: b"timeoutsroom",
        verb: Verb::Call(Call::Timeouts),
        room: 7,
        words: &[Room, Number, Number],
        has_more: false,
    },
    Row {
        name: b"timeoutsres",
        verb: Verb::Call(Call::OldTimeouts),
        room: 0,
        words: &[],
        has_more: true,
    },
    Row {
        name: b"writecapabilities",
        verb: Verb::Call(Call::WriteCapabilities),
        room: MAX_BODY,
        words: &[Byte, Byte, Byte, Byte, Byte, Byte, Byte, Byte],
        has_more: true,
    },
    Row {
        name: b"writecapabilitiesroom",
        verb: Verb::Call(Call::WriteCapabilities),
        room: MAX_BODY,
        words: &[Room, Byte, Byte, Byte, Byte, Byte, Byte, Byte, Byte],
        has_more: true,
    },
    Row {
        name: b"writenodes",
        verb: Verb::Call(Call::WriteNodes),
        room: MAX_BODY,
        words: &[Byte, Byte, Byte, Byte],
        has_more: true,
    },
    Row {
        name: b"writenodesroom",
        verb: Verb::Call(Call::WriteNodes),
        room: MAX_BODY,
        words: &[Room, Byte, Byte, Byte, Byte],
        has_more: true,
    },
    Row {
        name: b"writetimeouts",
        verb: Verb::Call(Call::WriteTimeouts),
        room: MAX_BODY,
        words: &[Number, Number],
        has_more: false,
    },
    Row {
        name: b"writetimeoutsroom",
        verb: Verb::Call(Call::WriteTimeouts),
        room: MAX_BODY,
        words: &[Room, Number, Number],
        has_more: false,
    },
];

// The row of the verb with this name.
pub(crate) fn row_of(name: &[u8]) -> Option<&'static Row>
    ensures { IfSome result (λ row. row.now.name.now ≡ name.now) }
{
    VERBS.iter().find(|row| row.name == name)
}
