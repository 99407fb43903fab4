ghost use Rattle.std.specs.Prelude.{◌≡◌, IfSome};
ghost use Rattle.tool_base.specs.Tools.{Ends};
ghost use Rattle.tool_replay.specs.Replaying.{Replays, ReplaysText, of_replay};

use broken_lists::{BrokenList, report_broken};
use lset_replay::{ReplayFault, replay};
use lset_report::write_report;
use lset_schedule::read_schedule;
use lset_text::Cause;
use std::alloc::Global;
use std::io::{Read, Write};
use tool_base::{Answer, Input, Tool, Trouble, run_tool};

/// Converts the error of `replay` to the program's error.
fn replay_trouble(fault: ReplayFault) -> Trouble
    ensures { result ≡ of_replay fault }
{
    match fault {
        ReplayFault::NoThread(line) => Trouble::Line(line, Cause::NoThread),
        ReplayFault::Busy(line) => Trouble::Line(line, Cause::Busy),
        ReplayFault::Idle(line) => Trouble::Line(line, Cause::Idle),
        ReplayFault::Memory => Trouble::Memory,
    }
}

/// The command `replay`. The answer is the text of the schedule's report, with exit status 0. The command fails with
/// `Line` at the text's first error or at the first event that is not enabled, and with `Memory` if an allocation
/// fails.
#[derive(Clone, Copy)]
pub struct Replay {}

impl Tool for Replay {
    ghost answers = { λ tool bytes made. ReplaysText bytes made };

    fn answer(&self, alloc: Global, input: Input<'_>) -> Result<Answer, Trouble> {
        let schedule = read_schedule(alloc, input.bytes())?;
        match replay(alloc, &schedule) {
            Ok(report) => {
                let text = write_report(alloc, &report)?;
                Ok(Answer { text, status: 0 })
            }
            Err(fault) => Err(replay_trouble(fault)),
        }
    }
}

/// The command `replay --lacks NAME`. The answer is the report of the schedule's run on the broken list (a list without
/// one of its checks), in version 2 of the format, with exit status 0. The command fails with `Memory` if an allocation
/// fails, and with `Line` on any other error of `report_broken`.
#[derive(Clone, Copy)]
pub struct ReplayBroken {
    pub broken: BrokenList,
}

impl Tool for ReplayBroken {
    fn answer(&self, alloc: Global, input: Input<'_>) -> Result<Answer, Trouble> {
        let report = report_broken(alloc, self.broken, input.bytes())?;
        let text = write_report(alloc, &report)?;
        Ok(Answer { text, status: 0 })
    }
}

/// Implements the command `replay`: reads a schedule from `input`, replays it, and writes the report to `output`.
///
/// If an error occurs before the first write, writes one line to `faults` and nothing to `output`. If a write to
/// `output` fails, `output` can contain a prefix of the answer. Returns the exit status: 0 if the report was written, 3
/// if an allocation failed, otherwise 1. Allocates. Blocks while reading and writing.
pub fn tool_replay<R: Read, W: Write, F: Write>(
    alloc: Global,
    input: &mut R,
    output: &mut W,
    faults: &mut F,
) -> u8
    ensures { Ends (λ made. IfSome (R.remaining input.old) (λ bytes. Replays bytes made))
        (W.contents output.old) (W.contents output.new) (F.contents faults.old) (F.contents faults.new) result }
{
    run_tool(alloc, &Replay {}, input, output, faults)
}
