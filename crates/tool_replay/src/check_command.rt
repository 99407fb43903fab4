ghost use Rattle.std.specs.Prelude.{◌≡◌, ◌≢◌, OnOk, IfOk, IfErr, IfSome};
ghost use Rattle.lset_history.specs.declared.fault.OrderFault.TheVariants as order;
ghost use Rattle.lset_report.specs.Report as reports;
ghost use Rattle.tool_base.specs.Tools.{Ends, view};
ghost use Rattle.tool_replay.specs.Checking.{refusal_text, IsAnswerOn, Checks, ChecksText};
ghost use Rattle.tool_base.specs.declared.trouble.Trouble.TheVariants.{Memory};

use lset_history::{OrderFault, check_order};
use lset_report::{Report, read_report};
use std::alloc::Global;
use std::io::{Read, Write};
use tool_base::{Answer, Input, Tool, Trouble, run_tool};

/// Returns the line that `check` prints for an order with the error `fault`: `refused`, the name of the error (such as
/// `WrongReply`) and, except for `WrongSet`, the call's number. Returns `Memory` if an allocation fails, or if `fault`
/// itself is a failed allocation.
fn refusal_text(alloc: Global, fault: OrderFault) -> Result<Vec<u8>, Trouble>
    ensures of_the_order { OnOk result (fault ≢ order.Memory) }
    ensures line { IfOk result (λ text. text.items ≡ refusal_text fault) }
    ensures memory { IfErr result (λ trouble. trouble ≡ Memory) }
{
    let text = match fault {
        OrderFault::Unknown(id) => format!(in alloc; "refused Unknown {id}\n")?,
        OrderFault::Twice(id) => format!(in alloc; "refused Twice {id}\n")?,
        OrderFault::Missing(id) => format!(in alloc; "refused Missing {id}\n")?,
        OrderFault::WrongReply(id) => format!(in alloc; "refused WrongReply {id}\n")?,
        OrderFault::TooEarly(id) => format!(in alloc; "refused TooEarly {id}\n")?,
        OrderFault::WrongSet => format!(in alloc; "refused WrongSet\n")?,
        OrderFault::Memory => return Err(Trouble::Memory),
    };
    Ok(text.into_bytes())
}

/// Checks the order of a report and returns the answer: `ok`, or the first error of the order.
fn answer_on(alloc: Global, report: &Report) -> Result<Answer, Trouble>
    ensures judged { IfOk (view result) (IsAnswerOn (reports.view report.now)) }
    ensures memory { IfErr result (λ trouble. trouble ≡ Memory) }
{
    match check_order(alloc, &report.history, &report.order, &report.keys) {
        Ok(()) => Ok(Answer {
            text: Vec::from_slice(alloc, b"ok\n")?,
            status: 0,
        }),
        Err(fault) => Ok(Answer {
            text: refusal_text(alloc, fault)?,
            status: 1,
        }),
    }
}

/// The command `check`. If the report's order is correct, the answer is `ok` with exit status 0. Otherwise the answer
/// is `refused`, the name of the order's first error and, except for `WrongSet`, the call's number, with exit status 1.
/// If the text is not a report, the command fails with the text's first error (`Line`). If an allocation fails, the
/// command fails with `Memory`.
#[derive(Clone, Copy)]
pub struct Check {}

impl Tool for Check {
    ghost answers = { λ tool bytes made. ChecksText bytes made };

    fn answer(&self, alloc: Global, input: Input<'_>) -> Result<Answer, Trouble> {
        let report = read_report(alloc, input.bytes())?;
        answer_on(alloc, &report)
    }
}

/// Implements the command `check`: reads a report from `input`, checks its order, and writes the answer to `output`.
/// The order must be a linearization of the report's calls (Herlihy and Wing) and leave exactly its final keys.
///
/// If an error occurs before the first write, writes one line to `faults` and nothing to `output`. If a write to
/// `output` fails, `output` can contain a prefix of the answer. Returns the exit status: 0 if `ok` was written, 3 if an
/// allocation failed, otherwise 1. Allocates. Blocks while reading and writing.
pub fn tool_check<R: Read, W: Write, F: Write>(
    alloc: Global,
    input: &mut R,
    output: &mut W,
    faults: &mut F,
) -> u8
    ensures { Ends (λ made. IfSome (R.remaining input.old) (λ bytes. Checks bytes made))
        (W.contents output.old) (W.contents output.new) (F.contents faults.old) (F.contents faults.new) result }
{
    run_tool(alloc, &Check {}, input, output, faults)
}
