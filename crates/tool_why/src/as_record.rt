//! Writes a diagnosis as a record. Each line has a name and its values.

use crate::sentences::{put_first, put_headline, put_known};
use std::alloc::{AllocError, Global};
use tool_calls::{put_call, state_word};
use tool_guess::{because_text, cause_text};
use tool_picture::{Diagnosis, Mark};

fn put_mark(out: &mut String, mark: Mark) -> Result<(), AllocError> {
    match mark {
        Mark::Nothing => out.push_str(" -\n"),
        Mark::Expected(yes) => writeln!(out, " expected {yes}"),
        Mark::Leaves(state) => {
            let state = state_word(state);
            writeln!(out, " leaves {state}")
        }
        Mark::Finds(state) => {
            let state = state_word(state);
            writeln!(out, " finds {state}")
        }
        Mark::Either => out.push_str(" either\n"),
        Mark::Suspected => out.push_str(" suspected\n"),
    }
}

/// Writes the lines of a text, each preceded by `word`.
fn put_lines(out: &mut String, word: &str, text: &str) -> Result<(), AllocError> {
    for line in text.lines() {
        writeln!(out, "{word} {line}")?;
    }
    Ok(())
}

/// Returns the record of a diagnosis. It has, in this order: `headline TEXT`; `call THREAD OPERATION KEY BEGIN END
/// REPLY MARK` for each call of the key that is shown (MARK is `-`, `expected BOOL`, `leaves STATE`, `finds STATE`,
/// `either` or `suspected`); `also THREAD OPERATION KEY BEGIN END REPLY` for each change of another key in the picture,
/// perhaps followed by `suspected`; `fact TEXT` for each fact; and, if there is a likely cause, `likely TEXT` and
/// `because TEXT`. Allocates.
pub fn diagnosis_record(alloc: Global, diagnosis: &Diagnosis) -> Result<String, AllocError> {
    let mut out = String::from_str(alloc, "headline ")?;
    put_headline(&mut out, diagnosis)?;
    for one in &diagnosis.shown {
        out.push_str("call ")?;
        put_call(&mut out, one.call)?;
        put_mark(&mut out, one.mark)?;
    }
    let mut beside = Vec::from_slice(alloc, &diagnosis.beside)?;
    beside.sort_unstable_by_key(|call| call.begun);
    for call in &beside {
        out.push_str("also ")?;
        put_call(&mut out, *call)?;
        out.push_str(if diagnosis.is_guilty(*call) {
            " suspected\n"
        } else {
            "\n"
        })?;
    }
    let mut facts = String::new(alloc);
    put_first(&mut facts, diagnosis)?;
    put_known(&mut facts, diagnosis)?;
    put_lines(&mut out, "fact", facts.as_str())?;
    if let Some(cause) = diagnosis.cause {
        let text = cause_text(cause);
        writeln!(out, "likely {text}")?;
        let because = because_text(
            alloc,
            &diagnosis.evidence,
            &diagnosis.further,
            diagnosis.guilty,
            cause,
        )?;
        writeln!(out, "because {because}")?;
    }
    Ok(out)
}
