ghost use Rattle.std.specs.Prelude.{◌≡◌, IfOk, IsTrue};
ghost use Rattle.clap.specs.Words.{FailsBy, fault_of, kind_of, subcommand_of};
ghost use Rattle.clap.specs.Walk.{texts};
ghost use Rattle.lset_command.specs.CommandLine.{choice_in, choice_of, listset};
ghost use Rattle.lset_command.specs.declared.table.Command.TheVariants.{Explain};
ghost use Rattle.lset_dispatch.specs.Dispatch.{Declines, Runs};

use crate::job::read_job;
use crate::running_jobs::{run_job, run_on_file};
use broken_lists::ALL;
use clap::Error;
use lset_command::{Command, Helps, LACKS_HELP, Words, is_out_of_memory, words_given};
use lset_text::kind_word;
use std::alloc::{AllocError, Global};
use std::fs::File;
use std::io::{Read, Write};
use std::net::{Net, TcpListener, TcpStream};
use std::rt::Files;
use std::sync::Wait;
use std::thread::Threads;
use std::time::Clock;
use tool_base::{Answer, FAULTS, Trouble, deliver, put};
use tool_explain::{explain_input, explain_unopened};

/// Handles a command line that `words_given` refused, and returns the exit status. If the user asked for the help or
/// the version, writes the text to `output`; the status is 0, or 1 if the text cannot be written completely. If an
/// allocation failed, writes an error message to `stderr` with status 3. Otherwise describes the mistake on `stderr`
/// with status 2.
fn decline<W: Write, E: Write>(alloc: Global, error: &Error, output: &mut W, stderr: &mut E) -> u8
    ensures { Declines (kind_of error.now)
        (W.contents output.old) (W.contents output.new) (E.contents stderr.old) (E.contents stderr.new) result }
{
    if is_out_of_memory(error) {
        return deliver(Err(Trouble::Memory), output, stderr);
    }
    let Ok(text) = format!(in alloc; "{error}") else {
        return deliver(Err(Trouble::Memory), output, stderr);
    };
    let text = text.into_bytes();
    if error.use_stderr() {
        let _whole = put(stderr, &text);
        2
    } else {
        deliver(Ok(Answer { text, status: 0 }), output, stderr)
    }
}

/// Returns the help for the option `--lacks`: the names of the broken lists (lists without one of their checks), each
/// with the kind of the intact list.
fn lacks_help(alloc: Global) -> Result<String, AllocError> {
    let mut help = String::from_str(alloc, LACKS_HELP)?;
    for (number, broken) in ALL.iter().enumerate() {
        let sign = if number == 0 { ':' } else { ',' };
        let (name, list) = (broken.name(), kind_word(broken.kind()));
        write!(help, "{sign} {name} ({list})")?;
    }
    Ok(help)
}

/// Parses the command line, without the program's name. An empty command line means `replay`. The help for `faults` is
/// the text that the command `faults` prints. Allocates.
///
/// # Errors
///
/// The error contains the text for the user: the help or the version if the user asked for it (`exit_code` 0), or a
/// description of the mistake in the command line (`exit_code` 2). If `is_out_of_memory` returns `true`, an allocation
/// failed.
pub fn tool_words(alloc: Global, words: &[&str]) -> Result<Words, Error>
    ensures taken { IfOk result (λ w. choice_in w ≡ choice_of (subcommand_of listset (texts words.entry.now))) }
    ensures refused { FailsBy (fault_of listset (texts words.entry.now)) result }
{
    match lacks_help(alloc) {
        Ok(lacks) => words_given(
            alloc,
            words,
            Helps {
                faults: FAULTS,
                lacks: lacks.as_str(),
            },
        ),
        Err(refused) => Err(Error::from(refused)),
    }
}

/// Returns `true` if the command is `explain`.
fn asks_to_explain(words: &Words) -> bool
    ensures { IsTrue result → words.now.command ≡ Explain }
{
    matches!(words.command, Command::Explain)
}

/// Explains a file, or explains why it cannot be opened.
fn explain_file<H: Files>(rt: &H, alloc: Global, path: &str) -> Result<Answer, Trouble> {
    match File::open(rt, path) {
        Ok(mut file) => explain_input(alloc, path, &mut file),
        Err(error) => explain_unopened(alloc, path, error.kind()),
    }
}

/// Runs the program with the command line `words`, which does not contain the program's name, and returns the exit
/// status. Reads the named file through `rt`, or reads `input` if the file is `-` or no file is named. Writes the
/// result to `output`, or an error to `stderr`.
///
/// `serve` opens its set with the keys in FILE or, if FILE is `-`, in `input`; without FILE, it reads no input. If an
/// argument is wrong, no file is opened. Allocates. `run` and `serve` start threads on `rt` and block until the threads
/// end. `serve` listens on `rt`.
pub fn run_words<
    H: Files + Net<Listener = TcpListener, Stream = TcpStream> + Threads + Wait + Clock + Sync,
    R: Read,
    W: Write,
    E: Write,
>(rt: &H, alloc: Global, words: &[&str], input: &mut R, output: &mut W, stderr: &mut E) -> u8
    ensures { Runs (texts words.entry.now) (λ bytes. (file : H.File) × (bytes ≡ H.File.remaining file)) (R.remaining input.old)
        (W.contents output.old) (W.contents output.new) (E.contents stderr.old) (E.contents stderr.new) result }
{
    let words = match tool_words(alloc, words) {
        Ok(words) => words,
        Err(error) => return decline(alloc, &error, output, stderr),
    };
    let job = match read_job(&words) {
        Ok(job) => job,
        Err(wrong) => return deliver(Err(Trouble::Bad(wrong)), output, stderr),
    };
    let Some(path) = words.path() else {
        return run_job(rt, alloc, job, input, output, stderr);
    };
    if asks_to_explain(&words) {
        return deliver(explain_file(rt, alloc, path), output, stderr);
    }
    run_on_file(rt, alloc, job, path, output, stderr)
}
