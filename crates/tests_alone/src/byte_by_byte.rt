//! Tests of inputs that arrive byte by byte, as from a slow recorder, and of an output that accepts one byte at a time.
//! Each test makes tens of thousands of reads or writes.
use crate::failing_devices::{Plan, WHOLE, Writer};
use crate::prelude::*;
use std::io::{self, Read};
use tool_base::{Answer, deliver};
use tool_judge::judge_input;
use tool_replay::tool_check;

/// The number of calls in a recording or a report. The calls do not overlap.
const CALLS: u32 = 4_000;

/// A reader that returns its text one byte at a time.
#[derive(Drop)]
struct Drops {
    text: String,
    next: usize,
}

impl Read for Drops {
    fn read(&mut self, buf: &mut [u8]) -> io::Result<usize> {
        let bytes = self.text.as_bytes();
        if buf.is_empty() || self.next >= bytes.len() {
            return Ok(0);
        }
        buf[0] = bytes[self.next];
        self.next = self.next.saturating_add(1);
        Ok(1)
    }
}

/// Returns a recording with `CALLS` calls.
fn recording(alloc: Global) -> Result<String, AllocError> {
    let mut text = String::from_str(alloc, "listset-calls 1\n")?;
    for number in 0..CALLS {
        let begun = 2 * number + 1;
        let end = begun + 1;
        writeln!(&mut text, "call 0 contains 5 {begun} {end} false")?;
    }
    writeln!(&mut text, "end")?;
    Ok(text)
}

#[test]
fn a_recording_comes_byte_by_byte(rt: HostRuntime) -> Result<(), Fail> {
    let alloc = rt.alloc();
    let text = recording(alloc)?;
    let mut input = Drops { text, next: 0 };
    match judge_input(alloc, &mut input) {
        Ok(answer) => {
            assert!(rt;
                answer.status == 0 && answer.text.starts_with(b"ok 4000 calls\n".as_slice())
            );
            Ok(())
        }
        Err(_) => Err(Fail::new("it is judged")),
    }
}

/// The report's order is empty, so `check` must refuse it: call 0 is missing.
#[test]
fn a_report_comes_byte_by_byte(rt: HostRuntime) -> Result<(), Fail> {
    let alloc = rt.alloc();
    let mut text = String::from_str(alloc, "listset-report 1\nlist lazy\nthreads 1\nquota 0\n")?;
    for number in 0..CALLS {
        let begun = 2 * number + 1;
        let end = begun + 1;
        writeln!(&mut text, "call {number} 0 contains 5 {begun} {end} false")?;
    }
    writeln!(&mut text, "end")?;
    let mut input = Drops { text, next: 0 };
    let (mut output, mut faults) = (Vec::new(alloc), Vec::new(alloc));
    let status = tool_check(alloc, &mut input, &mut output, &mut faults);
    assert!(rt; status == 1 && faults.is_empty());
    assert!(rt; output.as_slice() == b"refused Missing 0\n".as_slice());
    Ok(())
}

#[test]
fn an_answer_is_written_byte_by_byte(rt: HostRuntime) -> Result<(), Fail> {
    let alloc = rt.alloc();
    let text = recording(alloc)?.into_bytes();
    let plan = Plan { most: 1, ..WHOLE };
    let mut output = Writer::new(alloc, plan);
    let mut faults = Vec::new(alloc);
    let answer = Answer {
        text: Vec::from_slice(alloc, &text)?,
        status: 1,
    };
    assert!(rt; deliver(Ok(answer), &mut output, &mut faults) == 1);
    assert!(rt; faults.is_empty() && output.calls >= text.len());
    assert!(rt; output.taken.as_slice() == text.as_slice());
    Ok(())
}
