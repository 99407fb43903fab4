ghost use Rattle.std.specs.Prelude.{◌≡◌, ◌++◌, map, IfOk, OnOk, Some, string_bytes};
ghost use Rattle.lset_text.specs.Parts.{ended, text_of};
ghost use Rattle.lset_schedule.specs.Plan.{HasWordsOfVersion, view, line_text, schedule_text};

use crate::value::{Line, Schedule, title};
use lset_text::{Header, call_word, put_header, put_openings};
use std::alloc::{AllocError, Global};
use std::fmt;

impl fmt::Display for Line {
    ghost output = { λ l. Some (line_text l) };

    fn fmt<W: fmt::Write>(&self, f: &mut fmt::Formatter<W>) -> fmt::Result {
        match *self {
            Line::Begin(thread, call) => {
                let word = call_word(call);
                let key = call.key().0;
                write!(f, "begin {thread} {word} {key}")
            }
            Line::Go(thread, steps) => write!(f, "go {thread} {steps}"),
        }
    }
}

fn put_line(out: &mut String, line: &Line) -> Result<(), AllocError>
    ensures { OnOk result (string_bytes out.new ≡ string_bytes out.old ++ ended (line_text line.now)) }
{
    writeln!(out, "{line}")?;
    Ok(())
}

fn put_lines(out: &mut String, lines: &[Line]) -> Result<(), AllocError>
    ensures { OnOk result (string_bytes out.new ≡ string_bytes out.old ++ text_of (map line_text lines.now)) }
{
    for line in lines {
        put_line(out, line)?;
    }
    Ok(())
}

/// Returns the text of a schedule. If the schedule is within the limits, reading the text yields the schedule. Returns
/// `AllocError` if an allocation fails.
///
/// The schedule must contain only calls that its version allows. In version 1, it must have no opening keys (keys at
/// the start). Schedules from `read_schedule` and `generate` satisfy these conditions.
pub fn write_schedule(alloc: Global, schedule: &Schedule) -> Result<Vec<u8>, AllocError>
    requires { HasWordsOfVersion (view schedule.now) }
    ensures { IfOk result (λ v. v.items ≡ schedule_text (view schedule.now)) }
{
    let header = Header {
        kind: schedule.kind,
        threads: schedule.threads,
        quota: schedule.quota,
    };
    let mut out = String::new(alloc);
    put_header(&mut out, title(schedule.version), header)?;
    put_openings(&mut out, &schedule.opening)?;
    put_lines(&mut out, &schedule.lines)?;
    Ok(out.into_bytes())
}
