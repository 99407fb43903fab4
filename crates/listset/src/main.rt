//! The program `listset`. Passes the command line and the system's streams to `lset_dispatch`, and exits with the
//! status that `lset_dispatch` returns.
#![tactic(auto)]

use lset_command::VERSION;
use lset_dispatch::run_words;
use std::alloc::{AllocError, Global};
use std::io::{self, ErrorKind, Write};
use std::process::ExitCode;
use tool_base::{Trouble, deliver, put};

// The commit of the sources, and whether the sources are proved. A build that knows both overwrites the two lines in
// the program (`build/version_stamp.py`), so the lengths of the lines are fixed.
const BUILT: &str = "commit 0000000000000000000000000000000000000000\nproof unknown\n";

// The message for an argument that std cannot return as a `String`. (std cannot open a file with such a name either.)
const NOT_UTF8: &[u8] = b"listset: an argument is not UTF-8\n";

/// Returns the arguments after the program's name. The error has the kind `InvalidData` if an argument is not UTF-8. An
/// error of any other kind means that an allocation failed.
fn words_given(rt: &HostRuntime) -> io::Result<Vec<String>> {
    Ok(std::env::args(rt)?.skip(1).collect(rt.alloc())?)
}

fn texts(alloc: Global, given: &[String]) -> Result<Vec<&str>, AllocError> {
    let mut words = Vec::new(alloc);
    for word in given {
        words.push(word.as_str())?;
    }
    Ok(words)
}

/// Prints the error that an argument is not UTF-8, and returns exit status 2.
fn end_without_text(rt: &HostRuntime) -> ExitCode {
    let _whole = put(&mut rt.stderr(), NOT_UTF8);
    ExitCode::from(2)
}

/// Prints the error that memory ran out while the program read its arguments, and returns the exit status.
fn end_without_memory(rt: &HostRuntime) -> ExitCode {
    let (output, stderr) = (&mut io::writer(rt), &mut rt.stderr());
    ExitCode::from(deliver(Err(Trouble::Memory), output, stderr))
}

/// Prints the text of `--version`: the name, the version, the commit and whether the program is proved. Returns the
/// exit status.
fn tell_origin<W: Write, E: Write>(output: &mut W, stderr: &mut E) -> u8 {
    let is_whole = put(output, b"listset ")
        && put(output, VERSION.as_bytes())
        && put(output, b"\n")
        && put(output, BUILT.as_bytes());
    if is_whole {
        0
    } else {
        deliver(Err(Trouble::CannotWrite), output, stderr)
    }
}

fn asks_for_origin(words: &[&str]) -> bool {
    words.len() == 2 && words[0] == "--version" && words[1] == "--long"
}

// Passes `&rt` itself to other functions: a function that receives the runtime in another way cannot start threads or
// open sockets.
fn main(rt: HostRuntime) -> ExitCode {
    let given = match words_given(&rt) {
        Ok(given) => given,
        Err(error) => {
            return match error.kind() {
                ErrorKind::InvalidData => end_without_text(&rt),
                _ => end_without_memory(&rt),
            };
        }
    };
    let Ok(words) = texts(rt.alloc(), &given) else {
        return end_without_memory(&rt);
    };
    let (input, output, stderr) = (&mut rt.reader(), &mut io::writer(&rt), &mut rt.stderr());
    if asks_for_origin(&words) {
        return ExitCode::from(tell_origin(output, stderr));
    }
    ExitCode::from(run_words(&rt, rt.alloc(), &words, input, output, stderr))
}
