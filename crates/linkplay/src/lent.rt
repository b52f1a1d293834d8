// What each call of a link is lent, and where its line of output goes.
use frame::{LINE_ROOM, MAX_BODY};
use orders::{fill, within};
use script::{MOST, Output};

// The first n bytes of a buffer, all where there are fewer.
pub fn front(buffer: &mut [u8], n: usize) -> &mut [u8] {
    let n = within(n, buffer);
    &mut buffer[..n]
}

// The two buffers, line and up. Before each call the pattern stands in them. The sizes stand beside them: memory is fixed, and a line of the script sets what part is lent.
#[derive(Clone, Copy)]
pub struct Lent {
    pub line: [u8; MOST],
    pub up: [u8; MOST],
    // The sizes of the parts that are lent.
    pub line_room: usize,
    pub up_room: usize,
}

impl Lent {
    pub fn new() -> Self {
        let mut line = [0; MOST];
        let mut up = [0; MOST];
        fill(&mut line);
        fill(&mut up);
        Lent {
            line,
            up,
            line_room: LINE_ROOM,
            up_room: MAX_BODY,
        }
    }

    // The sizes that are lent from here on.
    pub fn set_rooms(&mut self, line: usize, up: usize) {
        self.line_room = line;
        self.up_room = up;
    }
}

// The buffers that the calls of a play are lent, and its output.
#[derive(Drop)]
pub struct Desk<'a, P: Print> {
    pub lent: Lent,
    pub out: Output<'a, P>,
}

impl<'a, P: Print> Desk<'a, P> {
    pub fn new(rt: &'a P) -> Self {
        Desk {
            lent: Lent::new(),
            out: Output::new(rt),
        }
    }
}
