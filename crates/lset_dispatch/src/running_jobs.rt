ghost use Rattle.lset_dispatch.specs.Asked.{IsKnown};
ghost use Rattle.std.specs.Prelude.{◌≡◌, Option};
ghost use Rattle.lset_dispatch.specs.Dispatch.{EndsOn, JobEnds};

use crate::below_refusal::{explained, pointed};
use crate::job::Job;
use crate::judge_only::print_key;
use broken_lists::BrokenList;
use std::alloc::Global;
use std::fs::File;
use std::io::{Read, Write};
use std::net::{Net, TcpListener, TcpStream};
use std::rt::Files;
use std::sync::Wait;
use std::thread::Threads;
use std::time::Clock;
use tool_base::{Trouble, deliver, explain_fault, list_faults, run_tool};
use tool_explain::explain_input;
use tool_judge::{ShowJudged, judge_briefly, judge_input, stats_input};
use tool_replay::{
    Expand, ReplayBroken, generate_text, print_example, tool_check, tool_replay, trace_events,
};
use tool_threads::{run_lives, serve_set, serve_set_of};

/// Replays the schedule in the input on the list that the schedule names or, if `broken` is not `None`, on that broken
/// list (a list without one of its checks). Returns the exit status.
fn replay<R: Read, W: Write, E: Write>(
    alloc: Global,
    broken: Option<BrokenList>,
    input: &mut R,
    output: &mut W,
    stderr: &mut E,
) -> u8
    ensures { JobEnds (Job.Replay broken) (R.remaining input.old)
        (W.contents output.old) (W.contents output.new) (E.contents stderr.old) (E.contents stderr.new) result }
{
    match broken {
        None => tool_replay(alloc, input, output, stderr),
        Some(broken) => run_tool(alloc, &ReplayBroken { broken }, input, output, stderr),
    }
}

/// Judges the recording in the input and returns the exit status. If the recording is refused, the output advises the
/// user to judge a file instead of a pipe.
fn judge<R: Read, W: Write, E: Write>(
    alloc: Global,
    input: &mut R,
    output: &mut W,
    stderr: &mut E,
) -> u8
    ensures { JobEnds Job.Judge (R.remaining input.old)
        (W.contents output.old) (W.contents output.new) (E.contents stderr.old) (E.contents stderr.new) result }
{
    let made = judge_input(alloc, input);
    deliver(pointed(made), output, stderr)
}

/// Judges the recording in the input and prints only the verdict, without a contradiction, advice or an explanation.
/// Returns the exit status.
fn judge_verdict<R: Read, W: Write, E: Write>(
    alloc: Global,
    input: &mut R,
    output: &mut W,
    stderr: &mut E,
) -> u8
    ensures { JobEnds Job.Verdict (R.remaining input.old)
        (W.contents output.old) (W.contents output.new) (E.contents stderr.old) (E.contents stderr.new) result }
{
    let made = judge_briefly(alloc, input);
    deliver(made, output, stderr)
}

/// Judges the recording in `file`, which is already open, and returns the exit status. If the recording is refused,
/// reads the file at `path` again and prints an explanation.
fn judge_file<H: Files, R: Read, W: Write, E: Write>(
    rt: &H,
    alloc: Global,
    path: &str,
    file: &mut R,
    output: &mut W,
    stderr: &mut E,
) -> u8
    ensures { JobEnds Job.Judge (R.remaining file.old)
        (W.contents output.old) (W.contents output.new) (E.contents stderr.old) (E.contents stderr.new) result }
{
    let made = judge_input(alloc, file);
    let made = explained(rt, alloc, made, path);
    deliver(made, output, stderr)
}

/// Runs a job and returns the exit status. Writes the result to `output`, or an error message of one line to `stderr`.
/// Some jobs read `input`. Allocates. `run` and `serve` start threads on `rt` and block until the threads end. `serve`
/// listens on `rt`.
pub(crate) fn run_job<
    H: Net<Listener = TcpListener, Stream = TcpStream> + Threads + Wait + Clock + Sync,
    R: Read,
    W: Write,
    E: Write,
>(rt: &H, alloc: Global, job: Job, input: &mut R, output: &mut W, stderr: &mut E) -> u8
    requires { IsKnown job }
    ensures { JobEnds job (R.remaining input.old)
        (W.contents output.old) (W.contents output.new) (E.contents stderr.old) (E.contents stderr.new) result }
{
    match job {
        Job::Replay(broken) => replay(alloc, broken, input, output, stderr),
        Job::Judge => judge(alloc, input, output, stderr),
        Job::Verdict => judge_verdict(alloc, input, output, stderr),
        Job::OneKey(key) => deliver(print_key(alloc, input, key), output, stderr),
        Job::Stats => deliver(stats_input(alloc, input), output, stderr),
        Job::Check => tool_check(alloc, input, output, stderr),
        Job::Show(show) => run_tool(alloc, &ShowJudged { show }, input, output, stderr),
        Job::Trace(trace) => deliver(trace_events(alloc, trace, input, output), output, stderr),
        Job::Draft => run_tool(alloc, &Expand {}, input, output, stderr),
        Job::Example(example) => deliver(print_example(alloc, example), output, stderr),
        Job::Gen(random) => deliver(generate_text(alloc, random), output, stderr),
        Job::Run(lives) => deliver(run_lives(rt, alloc, lives), output, stderr),
        Job::Serve(serve) => {
            let made = serve_set(rt, alloc, serve, &[], output);
            deliver(made, output, stderr)
        }
        Job::ServeKeys(serve) => {
            let made = serve_set_of(rt, alloc, serve, input, output);
            deliver(made, output, stderr)
        }
        Job::Faults => deliver(list_faults(alloc), output, stderr),
        Job::Explain => deliver(explain_input(alloc, "FILE", input), output, stderr),
        Job::Fault(name) => deliver(explain_fault(alloc, name), output, stderr),
    }
}

/// Runs a job on the file at `path` and returns the exit status. If the file cannot be opened, writes an error message
/// to `stderr`.
pub(crate) fn run_on_file<
    H: Files + Net<Listener = TcpListener, Stream = TcpStream> + Threads + Wait + Clock + Sync,
    W: Write,
    E: Write,
>(rt: &H, alloc: Global, job: Job, path: &str, output: &mut W, stderr: &mut E) -> u8
    requires { IsKnown job }
    ensures { EndsOn (Option.Some path.now) job (λ bytes. (file : H.File) × (bytes ≡ H.File.remaining file)) Option.None
        (W.contents output.old) (W.contents output.new) (E.contents stderr.old) (E.contents stderr.new) result }
{
    let Ok(mut file) = File::open(rt, path) else {
        return deliver(Err(Trouble::CannotRead), output, stderr);
    };
    match job {
        Job::Judge => judge_file(rt, alloc, path, &mut file, output, stderr),
        _ => run_job(rt, alloc, job, &mut file, output, stderr),
    }
}
