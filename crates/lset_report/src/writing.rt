ghost use Rattle.std.specs.Prelude.{◌≡◌, ◌++◌, map, IfOk, OnOk, Some, string_bytes};
ghost use Rattle.lset_text.specs.Parts.{ended, text_of};
ghost use Rattle.lset_report.specs.Report.{view};
ghost use Rattle.lset_report.specs.Texts.{call_line, call_lines, place_line, key_line, last_line, report_text, HasWordsOfVersion};

use crate::Report;
use crate::title::title;
use lset_text::{Header, call_word, put_header, put_openings, reply_word};
use lset_words::{CallRecord, Placed};
use std::alloc::{AllocError, Global};

fn put_call(out: &mut String, number: usize, made: CallRecord) -> Result<(), AllocError>
    ensures { OnOk result (string_bytes out.new ≡ string_bytes out.old ++ ended (call_line number made)) }
{
    let CallRecord {
        thread,
        call,
        begun,
        ended,
    } = made;
    let word = call_word(call);
    let key = call.key().0;
    match ended {
        Some((end, reply)) => {
            let reply = reply_word(reply);
            writeln!(
                out,
                "call {number} {thread} {word} {key} {begun} {end} {reply}"
            )?;
        }
        None => writeln!(out, "call {number} {thread} {word} {key} {begun} open")?,
    }
    Ok(())
}

fn put_calls(out: &mut String, calls: &[CallRecord]) -> Result<(), AllocError>
    ensures { OnOk result (string_bytes out.new ≡ string_bytes out.old ++ text_of (call_lines 0 calls.now)) }
{
    for (number, made) in calls.iter().enumerate() {
        put_call(out, number, *made)?;
    }
    Ok(())
}

fn put_place(out: &mut String, place: Placed) -> Result<(), AllocError>
    ensures { OnOk result (string_bytes out.new ≡ string_bytes out.old ++ ended (place_line place)) }
{
    let number = place.call;
    let reply = reply_word(place.reply);
    writeln!(out, "place {number} {reply}")?;
    Ok(())
}

fn put_order(out: &mut String, order: &[Placed]) -> Result<(), AllocError>
    ensures { OnOk result (string_bytes out.new ≡ string_bytes out.old ++ text_of (map place_line order.now)) }
{
    for place in order {
        put_place(out, *place)?;
    }
    Ok(())
}

fn put_key(out: &mut String, key: u32) -> Result<(), AllocError>
    ensures { OnOk result (string_bytes out.new ≡ string_bytes out.old ++ ended (key_line key)) }
{
    writeln!(out, "key {key}")?;
    Ok(())
}

fn put_keys(out: &mut String, keys: &[u32]) -> Result<(), AllocError>
    ensures { OnOk result (string_bytes out.new ≡ string_bytes out.old ++ text_of (map key_line keys.now)) }
{
    for key in keys {
        put_key(out, *key)?;
    }
    Ok(())
}

fn put_end(out: &mut String) -> Result<(), AllocError>
    ensures { OnOk result (string_bytes out.new ≡ string_bytes out.old ++ ended last_line) }
{
    writeln!(out, "end")?;
    Ok(())
}

/// Returns the text of a report in its version: the header, the opening keys (the keys at the start), the calls by
/// number, the order, and the final keys. A report of version 1 must have no opening keys, no call of `ceiling` and no
/// reply of a `ceiling`, because version 1 has no words for them. Every report from `read_report` satisfies this
/// condition. Returns `AllocError` if an allocation fails.
pub fn write_report(alloc: Global, report: &Report) -> Result<Vec<u8>, AllocError>
    requires { HasWordsOfVersion (view report.now) }
    ensures { IfOk result (λ v. v.items ≡ report_text (view report.now)) }
{
    let header = Header {
        kind: report.kind,
        threads: report.history.threads(),
        quota: report.history.quota(),
    };
    let mut out = String::new(alloc);
    put_header(&mut out, title(report.version), header)?;
    put_openings(&mut out, report.history.opening())?;
    put_calls(&mut out, report.history.calls())?;
    put_order(&mut out, &report.order)?;
    put_keys(&mut out, &report.keys)?;
    put_end(&mut out)?;
    Ok(out.into_bytes())
}
