// A play: the script cut into lines, and each carried out.
use crate::ends::Ends;
use crate::lent::Desk;
use orders::{Store, call_at};
use rules::Role;
use script::{SPELT, order_of};
use std::io;

// So many bytes of a line are kept.
const TEXT: usize = 4096;

// What lasts from line to line.
#[derive(Drop)]
pub struct Player<'a, P: Print> {
    ends: Ends,
    // What there is of a line that has not ended yet.
    line: Store<TEXT>,
    spelt: Store<SPELT>,
    desk: Desk<'a, P>,
}

impl<'a, P: Print> Player<'a, P> {
    pub fn new(rt: &'a P) -> Self {
        Player {
            ends: Ends::open(),
            line: Store::empty(),
            spelt: Store::empty(),
            desk: Desk::new(rt),
        }
    }

    // A part of the script, which may begin and end inside a line.
    pub fn on_part(&mut self, part: &[u8]) -> io::Result<()> {
        for piece in part.split_inclusive(|b| *b == b'\n') {
            match piece.strip_suffix(b"\n") {
                None => self.line.keep_whole(piece, piece.len()),
                Some(end) => {
                    self.line.keep_whole(end, end.len());
                    self.on_line()?;
                    self.line.clear();
                }
            }
        }
        self.desk.out.flush()
    }

    // The script has ended. The last line may have no newline.
    pub fn finish(&mut self) -> io::Result<()> {
        self.on_line()?;
        self.desk.out.flush()
    }

    // The line that is kept. One that was too long for that is an error.
    fn on_line(&mut self) -> io::Result<()> {
        if self.line.pending.is_lost {
            return self.desk.out.put_all(b"error\n");
        }
        let text = self.line.bytes();
        let from = call_at(text, text.len());
        // `CallAt` promises a place: the front is the host's
        let role = if from == 0 { Role::Host } else { Role::Module };
        match (role, order_of(&text[from..], &mut self.spelt)) {
            (Role::Host, Ok(None)) => Ok(()),
            (_, Ok(Some(order))) => self.ends.carry_out(role, &order, &mut self.desk),
            _ => self.desk.out.put_all(b"error\n"),
        }
    }
}
