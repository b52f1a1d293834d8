// The two ends of a play, and what a line asks of them.
use crate::end::End;
use crate::lent::Desk;
use crate::told::Asked;
use orders::Store;
use rules::Role;
use script::{Order, Verb};
use std::{io, mem};

#[derive(Clone, Copy)]
pub struct Ends {
    host: End,
    // The stand-in.
    module: End,
}

impl Ends {
    // A play begins as after `open` and `module open`.
    pub fn open() -> Self {
        Ends {
            host: End::open(Role::Host, None),
            module: End::open(Role::Module, None),
        }
    }

    fn of(&mut self, role: Role) -> &mut End {
        match role {
            Role::Host => &mut self.host,
            Role::Module => &mut self.module,
        }
    }

    // Carries out what a line asks. The stand-in is asked for the link's calls and to be opened: any other line for it is an error.
    pub fn carry_out<P: Print>(
        &mut self,
        role: Role,
        order: &Order,
        desk: &mut Desk<P>,
    ) -> io::Result<()> {
        match (order.verb, role) {
            (Verb::Link(verb), _) => {
                let asked = Asked { role, verb };
                self.of(role).carry_out(asked, order, desk)
            }
            (Verb::Open(mode), _) => {
                *self.of(role) = End::open(role, mode);
                Ok(())
            }
            (_, Role::Module) => desk.out.put_all(b"error\n"),
            (Verb::Room, Role::Host) => {
                desk.lent
                    .set_rooms(order.numbers.room, order.numbers.last as usize);
                Ok(())
            }
            (Verb::Pass, Role::Host) => self.pass(desk),
            (Verb::Call(call), Role::Host) => desk.out.put_order(call, order),
        }
    }

    // Gives each end what the other had put out: first the host's bytes to the stand-in, then those of the stand-in.
    fn pass<P: Print>(&mut self, desk: &mut Desk<P>) -> io::Result<()> {
        let asked = mem::replace(&mut self.host.put_out, Store::empty());
        let answered = mem::replace(&mut self.module.put_out, Store::empty());
        if asked.pending.is_lost || answered.pending.is_lost {
            desk.out.put_all(b"pass lost\n")?;
        }
        self.module.give(Role::Module, asked.bytes(), desk)?;
        self.host.give(Role::Host, answered.bytes(), desk)
    }
}
