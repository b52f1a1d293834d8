// What is told of a call on the link of an end: its line of output.
use link::Run;
use orders::{LinkVerb, is_spilled, restore, within};
use refusals::Refusal;
use report::{Reception, Report, Reset, Sending, Session};
use rules::Role;
use script::Output;
use std::fmt::Write;
use std::io;

// What a line asks of an end.
#[derive(Clone, Copy)]
pub struct Asked {
    pub role: Role,
    pub verb: LinkVerb,
}

// What a call answered that was not refused.
#[derive(Clone, Copy)]
pub struct Told {
    pub report: Report,
    // How many bytes a run took.
    pub taken: Option<usize>,
}

impl From<Report> for Told {
    fn from(report: Report) -> Told {
        Told {
            report,
            taken: None,
        }
    }
}

impl From<Run> for Told {
    fn from(run: Run) -> Told {
        Told {
            report: run.report,
            taken: Some(run.taken),
        }
    }
}

impl Told {
    // Whether the report says nothing, in all its parts, and no byte was put out or handed up. (A pattern: `==` would need the same six lines for an empty report.)
    fn is_nothing(self) -> bool {
        matches!(
            self.report,
            Report {
                reception: Reception::Nothing,
                sending: Sending::Nothing,
                session: Session::Nothing,
                reset: Reset::Nothing,
                line: 0,
                up: 0,
            }
        )
    }
}

// A report that was made, each part by its text (`Display`, which `report` promises), with the bytes for the line and handed up.
fn put_report<P: Print>(
    out: &mut Output<P>,
    report: Report,
    line: &[u8],
    up: &[u8],
) -> io::Result<()> {
    write!(out, " rx={}", report.reception)?;
    write!(out, " tx={}", report.sending)?;
    write!(out, " session={}", report.session)?;
    write!(out, " reset={} line=", report.reset)?;
    out.put_bytes(line)?;
    out.put_all(b" up=")?;
    out.put_bytes(up)
}

impl Asked {
    // The call's line of output, where it has one. The lent buffers are again as they were before the call.
    pub fn tell<P: Print>(
        self,
        out: &mut Output<P>,
        ticks: u64,
        told: Result<Told, Refusal>,
        line: &mut [u8],
        up: &mut [u8],
    ) -> io::Result<()> {
        // line and up are lent apart, as the calls of `Link` take them; a refused call reports no byte
        let (n, k) = told.map_or(
            (0, 0),
            |told| (told.report.line as usize, told.report.up as usize),
        );
        let spilled = is_spilled(line, n) || is_spilled(up, k);
        if !spilled && !self.has_line(told) {
            return Ok(());
        }
        self.put_line(
            out,
            ticks,
            told,
            &line[..within(n, line)],
            &up[..within(k, up)],
        )?;
        restore(line, n);
        restore(up, k);
        out.put_end(spilled)
    }

    // Whether a call has a line of output: of many ticks, only those that have something to tell.
    fn has_line(self, told: Result<Told, Refusal>) -> bool {
        match (self.verb, told) {
            (LinkVerb::Ticks, Ok(told)) => !told.is_nothing(),
            _ => true,
        }
    }

    // The end and the name of the call, when it was, and what it answered.
    fn put_line<P: Print>(
        self,
        out: &mut Output<P>,
        ticks: u64,
        told: Result<Told, Refusal>,
        line: &[u8],
        up: &[u8],
    ) -> io::Result<()> {
        if let Role::Module = self.role {
            out.put_all(b"module ")?;
        }
        write!(out, "{} at={ticks}", self.verb)?;
        match told {
            Err(refusal) => out.put_refused(refusal),
            Ok(told) => {
                if let Some(taken) = told.taken {
                    write!(out, " taken={taken}")?;
                }
                put_report(out, told.report, line, up)
            }
        }
    }
}
