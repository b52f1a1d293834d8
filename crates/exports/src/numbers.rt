// What the calls of a run told, as one number.
ghost use Rattle.std.specs.Prelude.{◌≡◌};
ghost use Rattle.exports.specs.Numbers as spec;

use link::Run;
use refusals::Refusal;
use report::{Report, report_told};

// A refused call: this much and the refusal's number, since C has no `Result`.
const REFUSED: u64 = 1000000;

// The number of a run's report, and how many bytes it took; a refused run took none.
#[derive(Clone, Copy, Debug, PartialEq, Eq)]
pub struct Tale {
    pub number: u64,
    pub taken: usize,
}

// One number more: three times the sum and the number, modulo 2^64. The order of the numbers matters.
pub fn mix(sum: u64, number: u64) -> u64
    ensures { result ≡ spec.mix sum number }
{
    sum.wrapping_mul(3).wrapping_add(number)
}

pub(crate) fn refused_number(refusal: Refusal) -> u64
    ensures { result ≡ spec.refused_number refusal }
{
    REFUSED + u64::from(u8::from(refusal))
}

// The four parts, each by its case and eight times its value, and the two numbers of bytes, mixed.
pub fn report_number(report: Report) -> u64
    ensures { result ≡ spec.report_number report }
{
    let [reception, sending, sent, session, copies, reset, line, up] = report_told(report);
    let sum = mix(reception, sending + 8 * sent);
    let sum = mix(sum, session + 8 * copies);
    let sum = mix(sum, reset);
    mix(mix(sum, line), up)
}

pub fn answer_number(answer: Result<Report, Refusal>) -> u64
    ensures { result ≡ spec.answer_number answer }
{
    answer.map_or_else(refused_number, report_number)
}

pub fn tale_of(answer: Result<Run, Refusal>) -> Tale
    ensures { (result.number ≡ spec.run_number answer) × (result.taken ≡ spec.run_taken answer) }
{
    match answer {
        Ok(Run { report, taken }) => Tale {
            number: report_number(report),
            taken,
        },
        Err(refusal) => Tale {
            number: refused_number(refusal),
            taken: 0,
        },
    }
}
