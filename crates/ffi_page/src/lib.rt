//! Exports the commands of `listset` as C functions, for C and for a web page. Each function reads a text, and returns
//! a text and an exit status.
//!
//! Each function writes the program's text (or a record with the same content), or an error message, to the start of
//! `room`. Each function returns the length of the written text in bytes, and sets `status` to the program's exit
//! status: 0; 1 if something is wrong with the text; 2 if a name is wrong; 3 if an allocation failed. If `room` is too
//! short, nothing is written; call the function again with a buffer of the returned length. The functions keep no
//! state. Only functions whose name ends in `_from` block.
#![tactic(auto)]

mod diagnosing; // why a recording is refused
mod handing; // copies results to the caller's buffer
mod host; // reads a file by its descriptor
mod page_arguments; // splits bytes into arguments
mod page_explanations; // explains causes and texts
mod page_pictures; // pictures, broken lists and examples
mod page_schedules; // generates schedules
mod records; // verdicts as records

ghost use Rattle.tool_replay.specs.Replaying.{ReplaysText};
ghost use Rattle.tool_replay.specs.Checking.{ChecksText};
ghost use Rattle.tool_replay.specs.GenAnswers.{Generates};
ghost use Rattle.tool_base.specs.Tools.{OnText};
ghost use Rattle.tool_judge.specs.Judging.{Judges};
ghost use Rattle.ffi_page.specs.Page.{Hands, OfText, OfWords};

use diagnosing::{diagnose_file, diagnose_recording, diagnose_text};
use handing::hand;
use host::HostInput;
use page_explanations::{explain_by, fault_by};
use page_pictures::{draw_text, example_by, run_broken};
use page_schedules::generate_by;
use records::{judge_recording, judge_report};
use std::alloc::Global;
use tool_base::{answer_text, list_faults};
use tool_judge::{judge_bytes, judge_input, stats_input};
use tool_replay::{Check, Expand, Replay, Trace};

/// Replays a schedule and writes its report. If the text has an error, is longer than 67,108,864 bytes, or has an event
/// that is not enabled, writes the message about the first error.
#[unsafe(no_mangle)]
pub extern "C" fn listset_replay(
    alloc: Global,
    text: &[u8],
    room: &mut [u8],
    status: &mut u8,
) -> usize
    ensures { Hands (OnText ReplaysText text.now) room.old room.new status.new result }
{
    hand(answer_text(alloc, &Replay {}, text), room, status)
}

/// Judges a recording. If some order explains the recorded calls, writes `ok N calls` and lines about the recording. If
/// no order does, writes `not linearizable` and the calls that show why, with status 1. If the text has an error,
/// writes the message about the first error.
#[unsafe(no_mangle)]
pub extern "C" fn listset_judge(
    alloc: Global,
    text: &[u8],
    room: &mut [u8],
    status: &mut u8,
) -> usize
    ensures { Hands (OfText Judges text.now) room.old room.new status.new result }
{
    hand(judge_bytes(alloc, text), room, status)
}

/// Judges the recording in the file with the descriptor `file` (0 is standard input), as `listset_judge` does. The
/// recording can have any length. Reads the file in pieces to the end or to the first error, and blocks while reading.
/// If `room` is too short, the text is lost and the file must be read again from its start; 8,192 bytes are enough.
#[unsafe(no_mangle)]
pub extern "C" fn listset_judge_from(
    alloc: Global,
    file: i32,
    room: &mut [u8],
    status: &mut u8,
) -> usize
    // No contract states the content of a file. The contract of `judge_input` states the answer for all bytes that can
    // be read.
    ensures { Hands (λ _. Unit {0}) room.old room.new status.new result }
{
    let mut input = HostInput { file };
    hand(judge_input(alloc, &mut input), room, status)
}

/// Counts the calls of the recording in the file with the descriptor `file`, as the command `stats` does. Reads the
/// file as `listset_judge_from` does.
#[unsafe(no_mangle)]
pub extern "C" fn listset_stats_from(
    alloc: Global,
    file: i32,
    room: &mut [u8],
    status: &mut u8,
) -> usize
    ensures { Hands (λ _. Unit {0}) room.old room.new status.new result }
{
    let mut input = HostInput { file };
    hand(stats_input(alloc, &mut input), room, status)
}

/// Judges a recording and writes the verdict as a record. Each line of a record consists of a name and values. If some
/// order explains the recorded calls, the record is `verdict ok`, `calls N`, `overlapped N` and `cut BOOL`.
///
/// If no order does, the status is 1 and the record is `verdict none` and `key K`, followed by `moment M` unless the
/// key is refused because of its final state. If a contradiction was found, three lines follow: `clash BOOL`, which
/// states whether the first call leaves the key present; `first call ..`, which is missing if the contradiction is with
/// the key's opening state; and `second call ..`, which is missing if the contradiction is with the key's final state.
/// Errors are written as `listset_judge` writes them.
#[unsafe(no_mangle)]
pub extern "C" fn listset_judge_record(
    alloc: Global,
    text: &[u8],
    room: &mut [u8],
    status: &mut u8,
) -> usize
    ensures { Hands (λ _. Unit {0}) room.old room.new status.new result }
{
    hand(judge_recording(alloc, text), room, status)
}

/// Diagnoses a refused recording: writes the lines that `listset judge FILE` prints below the lines of `listset_judge`,
/// with status 1. If the text is not a recording, or if some order explains its calls, writes nothing and sets status
/// 0.
#[unsafe(no_mangle)]
pub extern "C" fn listset_why(alloc: Global, text: &[u8], room: &mut [u8], status: &mut u8) -> usize
    ensures { Hands (λ _. Unit {0}) room.old room.new status.new result }
{
    hand(diagnose_text(alloc, text), room, status)
}

/// Diagnoses a refused recording and writes a record, with status 1. The record consists of the following lines, in the
/// given order:
/// - `headline TEXT`;
/// - `call THREAD OPERATION KEY BEGIN END REPLY MARK` for each call to show, ordered by start; MARK is `-`,
///   `expected BOOL`, `leaves STATE`, `finds STATE`, `either` or `suspected`, and STATE is `present` or `absent`;
/// - `also THREAD OPERATION KEY BEGIN END REPLY` for each overlapping change of another key (of many such changes, the
///   longest); `suspected` follows if the likely cause blames the change;
/// - `fact TEXT` for each fact;
/// - `likely TEXT` and `because TEXT`, if there is a likely cause.
///
/// END and REPLY are `-` for a pending call. If a line has the wrong form or some order explains the calls, writes
/// nothing and sets status 0. Judge the text first: `listset_why_record` does not check that keys increase, nor that
/// each call can follow the calls before it.
#[unsafe(no_mangle)]
pub extern "C" fn listset_why_record(
    alloc: Global,
    text: &[u8],
    room: &mut [u8],
    status: &mut u8,
) -> usize
    ensures { Hands (λ _. Unit {0}) room.old room.new status.new result }
{
    hand(diagnose_recording(alloc, text), room, status)
}

/// Diagnoses a refused recording in the file with the descriptor `file`, from the file's current position. Writes the
/// lines that `listset judge FILE` prints below a verdict of `used` lines, with status 1. If a line has the wrong form,
/// or if some order explains the calls, writes nothing and sets status 0. Judge the file first: `listset_why_from` does
/// not check that keys increase, nor that each call can follow the calls before it. Blocks while reading. If `room` is
/// too short, the text is lost; 8,192 bytes are enough.
#[unsafe(no_mangle)]
pub extern "C" fn listset_why_from(
    alloc: Global,
    file: i32,
    used: usize,
    room: &mut [u8],
    status: &mut u8,
) -> usize
    ensures { Hands (λ _. Unit {0}) room.old room.new status.new result }
{
    hand(diagnose_file(alloc, file, used), room, status)
}

/// Checks a report and writes the verdict as a record. If the report's order explains its calls, the record is `verdict
/// own`. Otherwise the status is 1 and the record consists of the following parts:
/// - `order ERROR CALL ..`, the order's first error with the number of a call (`WrongSet` has no call). `HistoryReply`
///   adds the call's reply in the order; `SetReply` adds this reply, the call's place in the order, and the set's
///   reply; `TooEarly` adds the call's start, and the number and the end of a call that comes later in the order but
///   had already ended at that start;
/// - `set K ..`, the set's keys at the error, only for `SetReply` and `WrongSet`;
/// - `verdict another`, `verdict unknown` or `verdict none`, which state whether an order other than the report's
///   explains the calls;
/// - after `verdict none`: `reply N` if no set returns the reply of call N, nothing if the final keys are not in
///   increasing order, and otherwise the lines of `listset_judge_record`.
///
/// Errors are written as `listset_check` writes them.
#[unsafe(no_mangle)]
pub extern "C" fn listset_check_record(
    alloc: Global,
    text: &[u8],
    room: &mut [u8],
    status: &mut u8,
) -> usize
    ensures { Hands (λ _. Unit {0}) room.old room.new status.new result }
{
    hand(judge_report(alloc, text), room, status)
}

/// Checks a report: writes `ok`, or the first error of the report's order with status 1. If the text has an error or is
/// too long, writes the message about the first error.
#[unsafe(no_mangle)]
pub extern "C" fn listset_check(
    alloc: Global,
    text: &[u8],
    room: &mut [u8],
    status: &mut u8,
) -> usize
    ensures { Hands (OnText ChecksText text.now) room.old room.new status.new result }
{
    hand(answer_text(alloc, &Check {}, text), room, status)
}

/// Traces a schedule and writes the trace. If an event is not enabled, the trace ends before that event and the status
/// is 1. If the text has an error or is too long, writes the message about the first error.
#[unsafe(no_mangle)]
pub extern "C" fn listset_trace(
    alloc: Global,
    text: &[u8],
    room: &mut [u8],
    status: &mut u8,
) -> usize
    ensures { Hands (λ _. Unit {0}) room.old room.new status.new result }
{
    let tool = Trace {
        chains: false,
        lacks: None,
    };
    hand(answer_text(alloc, &tool, text), room, status)
}

/// Traces a schedule as `listset_trace` does, and adds the chain of nodes after each event that changed the chain.
#[unsafe(no_mangle)]
pub extern "C" fn listset_trace_with_chains(
    alloc: Global,
    text: &[u8],
    room: &mut [u8],
    status: &mut u8,
) -> usize
    ensures { Hands (λ _. Unit {0}) room.old room.new status.new result }
{
    let tool = Trace {
        chains: true,
        lacks: None,
    };
    hand(answer_text(alloc, &tool, text), room, status)
}

/// Draws a schedule or a report and writes the picture as text. The status is 1 if the report's order is refused, or if
/// an event of the schedule is not enabled; a schedule is drawn up to the event that is not enabled. If the text has an
/// error or is too long, writes the message about the first error.
///
/// `options` contains first the value of `--from`, then of `--to`, then of `--width`, separated by zero bytes. Each
/// value follows a `=`. An option that is empty, or missing at the end, is not set. If an option is wrong, writes
/// `listset: bad FROM` (or `TO`, `WIDTH`) and sets status 2.
#[unsafe(no_mangle)]
pub extern "C" fn listset_show(
    alloc: Global,
    text: &[u8],
    options: &[u8],
    room: &mut [u8],
    status: &mut u8,
) -> usize
    ensures { Hands (λ _. Unit {0}) room.old room.new status.new result }
{
    hand(draw_text(alloc, text, false, options), room, status)
}

/// Draws a schedule or a report as `listset_show` does, but as an SVG.
#[unsafe(no_mangle)]
pub extern "C" fn listset_show_svg(
    alloc: Global,
    text: &[u8],
    options: &[u8],
    room: &mut [u8],
    status: &mut u8,
) -> usize
    ensures { Hands (λ _. Unit {0}) room.old room.new status.new result }
{
    hand(draw_text(alloc, text, true, options), room, status)
}

/// Runs a schedule on a broken list (a list without one of its checks), as `--lacks NAME` does, and writes the text of
/// a command. `name` is the name of the broken list. `words` contains the command (`replay`, `trace`,
/// `trace_with_chains`, `show` or `show_svg`) and the options of `listset_show`, separated by zero bytes. Only `show`
/// and `show_svg` check the report's order. If the order is refused, the final lines of `show` state whether another
/// order explains the report.
///
/// The errors are the errors of the command on the intact list; `listset: bad NAME: ..` with status 2 if no broken list
/// is named `name`; and `Kind` in line 2 if the schedule is for another list.
#[unsafe(no_mangle)]
pub extern "C" fn listset_lacking(
    alloc: Global,
    name: &[u8],
    text: &[u8],
    words: &[u8],
    room: &mut [u8],
    status: &mut u8,
) -> usize
    ensures { Hands (λ _. Unit {0}) room.old room.new status.new result }
{
    hand(run_broken(alloc, name, text, words), room, status)
}

/// Expands a draft (a schedule that can state where a thread stops) and writes the resulting schedule. If the text has
/// an error, is too long, or has a line that cannot be expanded, writes the message about the first error.
#[unsafe(no_mangle)]
pub extern "C" fn listset_draft(
    alloc: Global,
    text: &[u8],
    room: &mut [u8],
    status: &mut u8,
) -> usize
    ensures { Hands (λ _. Unit {0}) room.old room.new status.new result }
{
    hand(answer_text(alloc, &Expand {}, text), room, status)
}

/// Generates a random schedule and writes it. `values` contains the arguments of `gen`, separated by zero bytes. If an
/// argument is missing or wrong, writes `listset: bad NAME` for the first missing or wrong argument and sets status 2.
#[unsafe(no_mangle)]
pub extern "C" fn listset_gen(
    alloc: Global,
    values: &[u8],
    room: &mut [u8],
    status: &mut u8,
) -> usize
    ensures { Hands (OfWords Generates values.now) room.old room.new status.new result }
{
    hand(generate_by(alloc, values), room, status)
}

/// Writes all error messages of the program, with a sentence about each cause.
#[unsafe(no_mangle)]
pub extern "C" fn listset_faults(alloc: Global, room: &mut [u8], status: &mut u8) -> usize
    ensures { Hands (λ _. Unit {0}) room.old room.new status.new result }
{
    hand(list_faults(alloc), room, status)
}

/// Explains a cause of an error, such as `Idle`: writes what `listset faults CAUSE` prints. If no cause has this name,
/// writes `listset: bad CAUSE` and sets status 2.
#[unsafe(no_mangle)]
pub extern "C" fn listset_fault(
    alloc: Global,
    cause: &[u8],
    room: &mut [u8],
    status: &mut u8,
) -> usize
    ensures { Hands (λ _. Unit {0}) room.old room.new status.new result }
{
    hand(fault_by(alloc, cause), room, status)
}

/// Explains a text from a file. Writes the kind of the file, the first line with an error, an explanation of the error,
/// and how to correct it. `file` is the file's name.
#[unsafe(no_mangle)]
pub extern "C" fn listset_explain(
    alloc: Global,
    file: &[u8],
    text: &[u8],
    room: &mut [u8],
    status: &mut u8,
) -> usize
    ensures { Hands (λ _. Unit {0}) room.old room.new status.new result }
{
    hand(explain_by(alloc, file, text), room, status)
}

/// Writes the names of all examples, each with its kind of list and a description.
#[unsafe(no_mangle)]
pub extern "C" fn listset_examples(alloc: Global, room: &mut [u8], status: &mut u8) -> usize
    ensures { Hands (λ _. Unit {0}) room.old room.new status.new result }
{
    hand(example_by(alloc, None, false), room, status)
}

/// Writes the schedule of the example named `name`. If the example does not exist, writes `listset: bad NAME` and sets
/// status 2.
#[unsafe(no_mangle)]
pub extern "C" fn listset_example(
    alloc: Global,
    name: &[u8],
    room: &mut [u8],
    status: &mut u8,
) -> usize
    ensures { Hands (λ _. Unit {0}) room.old room.new status.new result }
{
    hand(example_by(alloc, Some(name), false), room, status)
}

/// Writes the report of a broken list (a list without one of its checks) that belongs to the example named `name`. If
/// the example does not exist or has no report of a broken list, writes `listset: bad NAME` and sets status 2.
#[unsafe(no_mangle)]
pub extern "C" fn listset_broken_example(
    alloc: Global,
    name: &[u8],
    room: &mut [u8],
    status: &mut u8,
) -> usize
    ensures { Hands (λ _. Unit {0}) room.old room.new status.new result }
{
    hand(example_by(alloc, Some(name), true), room, status)
}
