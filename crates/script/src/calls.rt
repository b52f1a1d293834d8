// The calls on frames and on command bodies, each with its line of output.
ghost use Rattle.std.specs.Prelude.{OnOk};
ghost use Rattle.script.specs.Output.{Ends};

use crate::order::{Numbers, Order};
use crate::output::Output;
use crate::table::Call;
use crate::word::MOST;
use capabilities::{Capabilities, Identity, read_capabilities, supports, write_capabilities};
use frame::build;
use nodes::{Controller, NodeList, read_nodes, write_nodes};
use orders::{behind, fill, is_spilled, spelt_at, within};
use reading::{Parts, read};
use refusals::Refusal;
use std::fmt::Write;
use std::io;
use timeouts::{OldTimeouts, read_timeouts, set_timeouts, write_timeouts};
use units::Millis;

// The number of two bytes at a place, most significant first.
fn pair_at(bytes: &[u8], at: usize) -> u16 {
    let rest = behind(bytes, at);
    u16::from_be_bytes([spelt_at(rest, 0), spelt_at(rest, 1)])
}

// The line has the 8 fixed bytes, then the mask.
fn identity_of(bytes: &[u8]) -> Identity {
    Identity {
        version: spelt_at(bytes, 0),
        revision: spelt_at(bytes, 1),
        manufacturer: pair_at(bytes, 2),
        product_type: pair_at(bytes, 4),
        product_id: pair_at(bytes, 6),
    }
}

// The line has the version, the capabilities, the chip's type and version, then the mask.
fn controller_of(bytes: &[u8]) -> Controller {
    Controller {
        version: spelt_at(bytes, 0),
        capabilities: spelt_at(bytes, 1),
        chip_type: spelt_at(bytes, 2),
        chip_version: spelt_at(bytes, 3),
    }
}

// Lists the functions that the body supports, in rising order, and answers how many there are.
// Apart from the loop of `nodes::read_nodes`, whose promise says what it lists: with a test handed to it that promise would be no plainer. n counts what is listed; over `iter_mut` it would have to be counted besides.
fn list_functions(body: &[u8], list: &mut [u8]) -> usize {
    let mut n = 0;
    for f in 1..=255 {
        if n < list.len() && matches!(supports(body, f), Ok(true)) {
            list[n] = f;
            n += 1;
        }
    }
    n
}

// What is said of each answer. Each function answers how many lent bytes it reports.
impl<'a, P: Print> Output<'a, P> {
    // An answer by the function that says it, or a refusal by its number; that reports no byte.
    fn put_answer<T: Copy, F: FnOnce(&mut Self, T) -> io::Result<usize>>(
        &mut self,
        answer: Result<T, Refusal>,
        put: F,
    ) -> io::Result<usize>
        requires { F.IsAlwaysCallable put }
    {
        match answer {
            Ok(value) => {
                self.put_all(b" ok ")?;
                put(self, value)
            }
            Err(refusal) => {
                self.put_refused(refusal)?;
                Ok(0)
            }
        }
    }

    // The first bytes of a list, so many.
    fn put_front(&mut self, list: &[u8], n: usize) -> io::Result<()> {
        self.put_bytes(&list[..within(n, list)])
    }

    // A frame or a body in the lent buffer.
    fn put_written(&mut self, count: u16, lent: &[u8]) -> io::Result<usize> {
        self.put_front(lent, count as usize)?;
        Ok(count as usize)
    }

    // The parts of a frame, whose parameters stand behind four bytes of it.
    fn put_parts(&mut self, parts: Parts, bytes: &[u8]) -> io::Result<usize> {
        let Parts { kind, command, .. } = parts;
        write!(self, "type={kind:02X} command={command:02X} parameters=")?;
        self.put_front(behind(bytes, 4), parts.count as usize)?;
        Ok(0)
    }

    fn put_capabilities(
        &mut self,
        answer: Capabilities,
        body: &[u8],
        list: &mut [u8],
    ) -> io::Result<usize> {
        let identity = answer.identity;
        write!(
            self,
            "fixed={:02X}{:02X}",
            identity.version, identity.revision
        )?;
        write!(
            self,
            "{:04X}{:04X}{:04X}",
            identity.manufacturer, identity.product_type, identity.product_id
        )?;
        write!(self, " count={} functions=", answer.supported)?;
        let n = list_functions(body, list);
        self.put_front(list, n)?;
        Ok(n)
    }

    fn put_nodes(&mut self, answer: NodeList, list: &[u8]) -> io::Result<usize> {
        let controller = answer.controller;
        write!(
            self,
            "version={:02X} capabilities={:02X} nodes=",
            controller.version, controller.capabilities
        )?;
        self.put_front(list, answer.count as usize)?;
        write!(
            self,
            " chip={:02X} chipversion={:02X}",
            controller.chip_type, controller.chip_version
        )?;
        Ok(answer.count as usize)
    }

    fn put_timeouts(&mut self, were: OldTimeouts) -> io::Result<usize> {
        write!(self, "{} {}", were.rxack.0, were.rxbyte.0)?;
        Ok(0)
    }

    // The call of an order, in the lent buffer, with what it answered.
    fn put_call(&mut self, call: Call, order: &Order, lent: &mut [u8]) -> io::Result<usize> {
        let bytes = order.bytes;
        let Numbers { before, last, .. } = order.numbers;
        let written = match call {
            Call::Read => {
                return self.put_answer(read(bytes), |out, parts| out.put_parts(parts, bytes));
            }
            Call::Capabilities => {
                return self.put_answer(read_capabilities(bytes), |out, answer| {
                    out.put_capabilities(answer, bytes, lent)
                });
            }
            Call::Nodes => {
                let answer = read_nodes(bytes, lent);
                return self.put_answer(answer, |out, answer| out.put_nodes(answer, lent));
            }
            Call::OldTimeouts => {
                return self.put_answer(read_timeouts(bytes), |out, were| out.put_timeouts(were));
            }
            Call::Build => build(
                spelt_at(bytes, 0),
                spelt_at(bytes, 1),
                behind(bytes, 2),
                lent,
            ),
            Call::WriteCapabilities => {
                write_capabilities(identity_of(bytes), behind(bytes, 8), lent)
            }
            Call::WriteNodes => write_nodes(controller_of(bytes), behind(bytes, 4), lent),
            Call::Timeouts => set_timeouts(Millis(before), Millis(last), lent),
            Call::WriteTimeouts => write_timeouts(Millis(before), Millis(last), lent),
        };
        self.put_answer(written, |out, count| out.put_written(count, lent))
    }

    // An order that needs no link, with its line of output.
    pub fn put_order(&mut self, call: Call, order: &Order) -> io::Result<()>
        ensures { OnOk result (Ends self.new.waiting 10) }
    {
        let mut space = [0; MOST];
        fill(&mut space);
        let n = within(order.numbers.room, &space);
        let lent = &mut space[..n];
        write!(self, "{call}")?;
        let used = self.put_call(call, order, lent)?;
        self.put_end(is_spilled(lent, used))
    }
}
