// An end of a play: its link, and the calls that are made on it.
use crate::lent::{Desk, front};
use crate::told::{Asked, Told};
use link::Link;
use orders::{LinkVerb, Store, behind, spelt_at};
use refusals::Refusal;
use rules::{Choice, Mode, Role};
use script::Order;
use std::io;

// So many bytes are kept of what an end puts out.
const KEPT: usize = 1024;

#[derive(Clone, Copy)]
pub struct End {
    link: Link,
    // The ticks accepted since opening.
    ticks: u64,
    // What it has put out since the last pass.
    pub put_out: Store<KEPT>,
}

impl End {
    // A fresh link for an end: the host's, where no mode is named, without a choice.
    pub fn open(role: Role, mode: Option<Mode>) -> Self {
        let link = match (role, mode) {
            (Role::Host, None) => Link::open(),
            _ => Link::open_as(Choice {
                role,
                mode: mode.unwrap_or(Choice::usual().mode),
            }),
        };
        End {
            link,
            ticks: 0,
            put_out: Store::empty(),
        }
    }

    // One call with its line of output, where it has one. It gives how many bytes a run took that was not refused.
    fn call<P, T, F>(
        &mut self,
        asked: Asked,
        desk: &mut Desk<P>,
        step: F,
    ) -> io::Result<Option<usize>>
    where
        P: Print,
        T: Into<Told>,
        F: FnOnce(&mut Link, &mut [u8], &mut [u8]) -> Result<T, Refusal>,
        requires { F.IsAlwaysCallable step }
    {
        let (line_room, up_room) = (desk.lent.line_room, desk.lent.up_room);
        let line = front(&mut desk.lent.line, line_room);
        let up = front(&mut desk.lent.up, up_room);
        let told: Result<Told, Refusal> = step(&mut self.link, line, up).map(T::into);
        if let Ok(told) = told {
            self.put_out.keep_whole(line, told.report.line as usize);
            if asked.verb.is_tick() {
                // no script is long enough for their count to wrap
                self.ticks = self.ticks.wrapping_add(1);
            }
        }
        asked.tell(&mut desk.out, self.ticks, told, line, up)?;
        Ok(told.ok().and_then(|told| told.taken))
    }

    // So many calls, each with its line of output. A refusal ends none of them.
    fn calls<P, T, F>(
        &mut self,
        asked: Asked,
        times: u32,
        desk: &mut Desk<P>,
        step: F,
    ) -> io::Result<()>
    where
        P: Print,
        T: Into<Told>,
        F: Copy + FnOnce(&mut Link, &mut [u8], &mut [u8]) -> Result<T, Refusal>,
        requires { F.IsAlwaysCallable step }
    {
        for _ in 0..times {
            self.call(asked, desk, step)?;
        }
        Ok(())
    }

    // The calls that an order asks for, so many as its verb makes of them.
    pub fn carry_out<P: Print>(
        &mut self,
        asked: Asked,
        order: &Order,
        desk: &mut Desk<P>,
    ) -> io::Result<()> {
        let times = asked.verb.times_of(order.numbers.last);
        let bytes = order.bytes;
        let first = spelt_at(bytes, 0);
        match asked.verb {
            LinkVerb::Send => self.calls(asked, times, desk, |link, line, up| {
                link.send(first, spelt_at(bytes, 1), behind(bytes, 2), line, up)
            }),
            LinkVerb::Session => self.calls(asked, times, desk, |link, line, up| {
                link.session(first, behind(bytes, 1), line, up)
            }),
            LinkVerb::Byte => self.calls(asked, times, desk, |link, line, up| {
                link.byte(first, line, up)
            }),
            LinkVerb::Bytes => self.calls(asked, times, desk, |link, line, up| {
                link.bytes(bytes, line, up)
            }),
            LinkVerb::Tick | LinkVerb::Ticks => self.calls(asked, times, desk, |link, line, up| {
                link.tick(line, up)
            }),
            LinkVerb::Restart => self.calls(asked, times, desk, |link, line, up| {
                link.restart(line, up)
            }),
        }
    }

    // Gives an end these bytes, as runs until all are taken or a run is refused, which drops those that are left. Each run takes at least one, so they are no more than the bytes: a `while` would have to ask each run whether it took one, and be no plainer.
    pub fn give<P: Print>(
        &mut self,
        role: Role,
        bytes: &[u8],
        desk: &mut Desk<P>,
    ) -> io::Result<()> {
        let asked = Asked {
            role,
            verb: LinkVerb::Bytes,
        };
        let mut rest = bytes;
        for _ in bytes {
            match self.call(asked, desk, |link, line, up| link.bytes(rest, line, up))? {
                Some(taken) if taken < rest.len() => rest = behind(rest, taken),
                _ => return Ok(()),
            }
        }
        Ok(())
    }
}
