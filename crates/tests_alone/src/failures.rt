//! Runs the program repeatedly. In each run, a different read or write fails. (`tests/transcripts` checks the output of
//! runs without failures.)
use crate::failing_devices::{
    CANNOT_READ, CANNOT_WRITE, Failure, Plan, Reader, WHOLE, Way, Writer, planned,
};
use crate::prelude::*;
use lset_command::is_out_of_memory;
use lset_dispatch::{run_words, tool_words};
use lset_text::cut;
use tool_replay::tool_gen;
use tool_threads::tool_run;

/// The arguments of a run of the program, and its standard input.
type Row = (&'static [&'static str], &'static str);

const SCHEDULE: &str =
    "listset-schedule 1\nlist coarse\nthreads 1\nquota 4\nbegin 0 add 5\ngo 0 7\n";

/// A schedule with an error: a thread takes a step although it has no pending call.
const IDLE: &str =
    "listset-schedule 1\nlist coarse\nthreads 1\nquota 4\nbegin 0 add 5\ngo 0 1\ngo 0 7\n";

const REPORT: &str =
    "listset-report 1\nlist coarse\nthreads 1\nquota 4\ncall 0 0 add 5 1 8 true\nplace 0 true\nkey 5\nend\n";

/// A report with one call, which is missing from the report's order.
const LEFT_OUT: &str =
    "listset-report 1\nlist coarse\nthreads 1\nquota 4\ncall 0 0 add 5 1 8 true\nkey 5\nend\n";

/// A recording that is linearizable.
const EXPLAINED: &str =
    "listset-calls 1\nopening 7\ncall 0 add 5 1 4 true\ncall 1 remove 7 2 - -\nkey 5\nend\n";

/// A recording that is not linearizable: two calls add the same key and both return true.
const BOTH: &str = "listset-calls 1\ncall 0 add 5 1 4 true\ncall 1 add 5 2 3 true\nkey 5\nend\n";

/// A recording without its last line.
const UNENDED: &str = "listset-calls 1\ncall 0 add 5 1 4 true\nkey 5\n";

const DRAFT: &str = "listset-draft 2\nlist coarse\nthreads 1\nquota 4\nbegin 0 add 5\ngo 0 out\n";

/// A schedule with one `contains`. The schedule runs on the broken LazyList whose `contains` ignores the mark.
const LOOK: &str =
    "listset-schedule 2\nlist lazy\nthreads 1\nquota 0\nbegin 0 contains 5\ngo 0 2\n";

/// The output of a server that ended with the final key 7.
const PRINTED: &str = "listening 127.0.0.1:4711\nsessions 1\ncalls 1\nkey 7\n";

/// Runs of the program: first the runs that write to the output, then the runs that only write an error line to stderr.
const ROWS: [Row; 31] = [
    (&["replay"], SCHEDULE),
    (&["check"], REPORT),
    (&["check"], LEFT_OUT),
    (&["judge"], EXPLAINED),
    (&["judge"], BOTH),
    (&["draft"], DRAFT),
    (&["show"], SCHEDULE),
    (&["show"], LEFT_OUT),
    (&["show"], IDLE),
    (&["show", "--svg"], SCHEDULE),
    (&["trace", "--chain"], SCHEDULE),
    (&["trace"], IDLE),
    (&["replay", "--lacks", "mark-in-contains"], LOOK),
    (&["trace", "--lacks", "mark-in-contains"], LOOK),
    (&["show", "--lacks", "mark-in-contains"], LOOK),
    (&["gen", "coarse", "1", "4", "1", "8", "1"], ""),
    (&["example", "full"], ""),
    (&["run", "coarse", "1", "4", "2", "8", "1"], ""),
    (&["--help"], ""),
    (&["replay"], REPORT),
    (&["check"], SCHEDULE),
    (&["judge"], UNENDED),
    (&["draft"], REPORT),
    (&["show"], BOTH),
    (&["trace"], REPORT),
    (&["replay", "--lacks", "mark-in-contains"], REPORT),
    (&["gen", "skip"], ""),
    (&["example", "snap"], ""),
    (&["run", "skip"], ""),
    (&["serve", "skip"], ""),
    (&["skip"], ""),
];

/// A run of a server that accepts no session. The server's set opens with the keys in the input.
const SERVER: Row = (&["serve", "lazy", "1", "4", "0", "0", "-"], PRINTED);

/// A completed run of the program: the exit status, the input, the output and stderr.
#[derive(Drop)]
struct Run {
    status: u8,
    input: Reader,
    output: Writer,
    stderr: Writer,
}

/// Returns the text without the line that contains a server's port, because the port differs between runs.
fn without_port(text: &[u8]) -> &[u8] {
    if !text.starts_with(b"listening ") {
        return text;
    }
    match cut(text, b'\n') {
        Some((_line, rest)) => rest,
        None => text,
    }
}

impl Run {
    /// Returns `true` if the run wrote the error line `line` to stderr and nothing to the output.
    fn wrote_only(&self, line: &[u8]) -> bool {
        self.output.calls == 0 && self.stderr.taken.as_slice() == line
    }

    /// Returns `true` if two runs wrote the same bytes and had the same exit status.
    fn is_as(&self, other: &Run) -> bool {
        self.status == other.status
            && without_port(&self.output.taken) == without_port(&other.output.taken)
            && self.stderr.taken == other.stderr.taken
    }
}

/// Runs the program with the arguments and the input in a `Row`. The plans determine when the input, the output and
/// `stderr` fail.
fn run_on<R: Host>(rt: &R, alloc: Global, (words, input): Row, plans: [Plan; 3]) -> Run {
    let [of_input, output, stderr] = plans;
    let mut input = Reader::new(input, of_input);
    let mut output = Writer::new(alloc, output);
    let mut stderr = Writer::new(alloc, stderr);
    let status = run_words(rt, alloc, words, &mut input, &mut output, &mut stderr);
    Run {
        status,
        input,
        output,
        stderr,
    }
}

const READS: [Way; 3] = [
    (Failure::Interrupted, 1),
    (Failure::BrokenPipe, 7),
    (Failure::BrokenPipe, 4096),
];

const WRITES: [Way; 3] = [
    (Failure::Interrupted, 1),
    (Failure::BrokenPipe, 3),
    (Failure::Nothing, 7),
];

/// The maximum number of reads or writes in one run.
const MOST_CALLS: usize = 10_000;

#[derive(Clone, Copy)]
enum Device {
    Input,
    Output,
    Stderr,
}

impl Device {
    /// Returns the plans for input, output and `stderr`. Only the reader or writer `self` fails, as `plan` determines.
    fn plans(self, plan: Plan) -> [Plan; 3] {
        match self {
            Device::Input => [plan, WHOLE, WHOLE],
            Device::Output => [WHOLE, plan, WHOLE],
            Device::Stderr => [WHOLE, WHOLE, plan],
        }
    }

    /// Returns the number of reads, or of writes and flushes, that a run made on the reader or writer `self`.
    fn calls(self, run: &Run) -> usize {
        match self {
            Device::Input => run.input.calls,
            Device::Output => run.output.calls,
            Device::Stderr => run.stderr.calls,
        }
    }

    /// Returns the number of bytes that the reader or writer `self` transfers in a run without failures.
    fn moved(self, (_words, input): Row, whole: &Run) -> usize {
        match self {
            Device::Input if whole.input.calls == 0 => 0,
            Device::Input => input.len(),
            Device::Output => whole.output.taken.len(),
            Device::Stderr => whole.stderr.taken.len(),
        }
    }

    /// Returns `true` if the program reacted correctly to the failure. After a failed read, nothing may be written to
    /// the output. After a failed write, the output must be a prefix of the text. A failed write of the error line must
    /// not change the exit status.
    fn is_met(self, whole: &Run, run: &Run) -> bool {
        match self {
            Device::Input => run.status == 1 && run.wrote_only(CANNOT_READ),
            Device::Output => {
                let is_told = run.stderr.taken.as_slice() == CANNOT_WRITE;
                run.status == 1 && run.output.stopped_within(&whole.output.taken) && is_told
            }
            Device::Stderr => {
                let is_met = run.stderr.stopped_within(&whole.stderr.taken);
                run.status == whole.status && is_met && run.output.calls == 0
            }
        }
    }
}

/// Runs the program several times: in run n (from 0), the n-th read or write of `device` fails. Stops at the first run
/// without a failure, and returns the number of runs before it.
fn each_call_fails<R: Host>(
    rt: &R,
    alloc: Global,
    row: Row,
    device: Device,
    way: Way,
) -> Result<usize, Fail> {
    let whole = run_on(rt, alloc, row, [WHOLE, WHOLE, WHOLE]);
    for fails_at in 0..MOST_CALLS {
        let run = run_on(rt, alloc, row, device.plans(planned(way, fails_at)));
        if device.calls(&run) <= fails_at {
            assert!(rt; run.is_as(&whole), "{:?}", row.0);
            let moved = device.moved(row, &whole);
            assert!(rt; fails_at.saturating_mul(way.1) >= moved, "{:?}", row.0);
            return Ok(fails_at);
        }
        assert!(rt; device.is_met(&whole, &run), "{:?}", row.0);
        assert!(rt; device.calls(&run) == fails_at + 1, "{:?}", row.0);
    }
    Err(Fail::new("no run ends without a failure"))
}

fn each_row_fails<R: Host>(
    rt: &R,
    alloc: Global,
    device: Device,
    ways: &[Way],
) -> Result<(), Fail> {
    for row in &ROWS {
        for way in ways {
            each_call_fails(rt, alloc, *row, device, *way)?;
        }
    }
    Ok(())
}

#[test]
fn a_failed_read_ends_the_run_without_output(rt: HostRuntime) -> Result<(), Fail> {
    each_row_fails(&rt, rt.alloc(), Device::Input, &READS)?;
    let runs = each_call_fails(&rt, rt.alloc(), SERVER, Device::Input, READS[1])?;
    assert!(rt; runs > PRINTED.len() / 7);
    Ok(())
}

#[test]
fn a_failed_write_ends_the_run(rt: HostRuntime) -> Result<(), Fail> {
    each_row_fails(&rt, rt.alloc(), Device::Output, &WRITES)
}

#[test]
fn a_failed_line_about_an_error_keeps_the_status(rt: HostRuntime) -> Result<(), Fail> {
    each_row_fails(&rt, rt.alloc(), Device::Stderr, &WRITES)
}

/// A read or write fails, and then the error line cannot be written either. The exit status must still be 1.
#[test]
fn the_status_stays_if_a_device_and_the_line_about_it_fail(rt: HostRuntime) {
    for (device, line) in [(Device::Input, CANNOT_READ), (Device::Output, CANNOT_WRITE)] {
        for write in 0..line.len() {
            let [input, output, _] = device.plans(planned(WRITES[0], 5));
            let plans = [input, output, planned(WRITES[0], write)];
            let run = run_on(&rt, rt.alloc(), ROWS[0], plans);
            assert!(rt; run.status == 1 && run.stderr.stopped_within(line));
        }
    }
}

/// A schedule for two threads: one thread attempts to take a lock that the other thread holds. The trace of the
/// schedule is longer than the buffer, so the trace is written in several pieces.
const TRIES: &str = "listset-schedule 1\nlist coarse\nthreads 2\nquota 4\n\
    begin 0 add 5\ngo 0 1\nbegin 1 add 7\ngo 1 2000\n";

/// The output accepts up to 4,096 bytes per write. After a failed write, the output must contain a prefix of the trace,
/// and the program must not write to it again.
#[test]
fn a_failed_write_of_a_long_trace_leaves_a_prefix(rt: HostRuntime) -> Result<(), Fail> {
    let row: Row = (&["trace"], TRIES);
    let whole = run_on(&rt, rt.alloc(), row, [WHOLE, WHOLE, WHOLE]);
    assert!(rt; whole.status == 0 && whole.output.taken.len() > 4 * 15_360);
    for call in 0..MOST_CALLS {
        let plan = planned((Failure::Interrupted, 4096), call);
        let run = run_on(&rt, rt.alloc(), row, [WHOLE, plan, WHOLE]);
        if run.status == 0 {
            assert!(rt; run.is_as(&whole) && call > 15);
            return Ok(());
        }
        let is_front = whole.output.taken.starts_with(&run.output.taken);
        assert!(rt; is_front && run.status == 1 && run.output.calls == call + 1);
        assert!(rt; run.stderr.taken.as_slice() == CANNOT_WRITE);
    }
    Err(Fail::new("no run ends without a failure"))
}

/// Another listener already uses the port. The exit status must be 1 even if the error line cannot be written.
#[test]
fn a_server_on_a_taken_port_exits_with_status_1(rt: HostRuntime) -> Result<(), Fail> {
    let alloc = rt.alloc();
    let listener = TcpListener::bind(&rt, "127.0.0.1:0")?;
    let port = listener.local_addr()?.port().to_string(alloc)?;
    let words = ["serve", "lazy", "1", "4", port.as_str(), "1"];
    let line = b"listset: cannot listen\n".as_slice();
    for write in 0..=line.len() {
        let mut output = Writer::new(alloc, WHOLE);
        let mut stderr = Writer::new(alloc, planned((Failure::BrokenPipe, 1), write));
        let status = run_words(
            &rt,
            alloc,
            &words,
            &mut "".as_bytes(),
            &mut output,
            &mut stderr,
        );
        assert!(rt; status == 1 && output.calls == 0);
        assert!(rt; stderr.taken.as_slice() == &line[..write]);
    }
    Ok(())
}

/// `tool_gen` and `tool_run` must write the same text and return the same status as the program.
#[test]
fn tool_gen_and_tool_run_do_what_the_program_does(rt: HostRuntime) -> Result<(), Fail> {
    let alloc = rt.alloc();
    for row in &ROWS {
        let whole = run_on(&rt, alloc, *row, [WHOLE, WHOLE, WHOLE]);
        let values = match tool_words(alloc, row.0) {
            Ok(words) => words.values,
            Err(_) => continue,
        };
        let (mut output, mut stderr) = (Vec::new(alloc), Vec::new(alloc));
        let status = match row.0[0] {
            "gen" => tool_gen(alloc, &values, &mut output, &mut stderr),
            "run" => tool_run(&rt, alloc, &values, &mut output, &mut stderr),
            _ => continue,
        };
        assert!(rt; status == whole.status, "{:?}", row.0);
        assert!(rt; output == whole.output.taken && stderr == whole.stderr.taken);
    }
    Ok(())
}

#[test]
fn a_failed_allocation_of_arguments_is_out_of_memory(rt: HostRuntime) {
    assert!(rt; is_out_of_memory(&clap::Error::from(AllocError)));
}
