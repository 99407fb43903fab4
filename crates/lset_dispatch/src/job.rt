ghost use Rattle.std.specs.Prelude.{◌≡◌, IfOk, IfSome, option_map, string_bytes};
ghost use Rattle.lset_command.specs.CommandLine.{choice_in};
ghost use Rattle.lset_dispatch.specs.Asked.{IsKnown, asked, asked_judge, asked_replay};

use broken_lists::{BrokenList, named};
use lset_command::{Command, Options, Words};
use lset_text::number;
use tool_base::{
    FaultName, LivesRequest, RandomRequest, ServeRequest, ValueName, read_fault_name,
    read_lives_request, read_random_request, read_serve_request,
};
use tool_replay::{ExampleRequest, Trace, read_example_request};
use tool_show::{Show, read_show};

/// A job: a command to run, with its checked arguments. The file that the command reads is not part of the job.
#[derive(Clone, Copy)]
pub(crate) enum Job {
    Replay(Option<BrokenList>),
    Judge,
    /// Print only the verdict of `judge`, without a contradiction, advice or an explanation.
    Verdict,
    /// Print the recorded calls on one key.
    OneKey(u32),
    Stats,
    Check,
    Show(Show),
    Trace(Trace),
    Draft,
    Example(ExampleRequest),
    Gen(RandomRequest),
    Run(LivesRequest),
    /// Serve a set that opens empty.
    Serve(ServeRequest),
    /// Serve a set that opens with the keys in the input.
    ServeKeys(ServeRequest),
    /// Explain all error messages.
    Faults,
    Fault(FaultName),
    /// Explain the first error in standard input.
    Explain,
}

/// Returns the broken list (a list without one of its checks) that the option `--lacks` names, or `None` if the option
/// is missing. The error is `ValueName::Lacks` if no broken list has this name.
fn find_broken(lacks: &Option<String>) -> Result<Option<BrokenList>, ValueName> {
    match lacks {
        None => Ok(None),
        Some(name) => Ok(Some(named(name.as_bytes()).ok_or(ValueName::Lacks)?)),
    }
}

/// Reads the arguments of `replay`.
fn read_replay(lacks: &Option<String>) -> Result<Job, ValueName>
    ensures asked { IfSome (asked_replay (option_map string_bytes lacks.now)) (λ r. result ≡ r) }
    ensures known { IfOk result IsKnown }
{
    match lacks {
        None => Ok(Job::Replay(None)),
        Some(_) => Ok(Job::Replay(find_broken(lacks)?)),
    }
}

/// Parses a key: a decimal number from 0 to 4,294,967,295.
fn read_key(text: &str) -> Result<u32, ValueName> {
    number(text.as_bytes(), 0, u32::MAX).ok_or(ValueName::Key)
}

/// Reads the arguments of `judge`.
fn read_judge(brief: bool, only: &Option<String>) -> Result<Job, ValueName>
    ensures asked { IfSome (asked_judge (option_map string_bytes only.now) brief) (λ r. result ≡ r) }
    ensures known { IfOk result IsKnown }
{
    match only {
        None if brief => Ok(Job::Verdict),
        None => Ok(Job::Judge),
        Some(key) => Ok(Job::OneKey(read_key(key)?)),
    }
}

/// Reads the arguments of `show`.
fn read_show_job(options: &Options) -> Result<Job, ValueName>
    ensures { IfOk result IsKnown }
{
    let (from, to, width) = (&options.from, &options.to, &options.width);
    let show = read_show(
        options.svg,
        from.as_deref(),
        to.as_deref(),
        width.as_deref(),
    )?;
    let lacks = find_broken(&options.lacks)?;
    Ok(Job::Show(Show { lacks, ..show }))
}

/// Reads the arguments of `example`.
fn read_example(words: &Words) -> Result<Job, ValueName>
    ensures { IfOk result IsKnown }
{
    let name = match words.values.first() {
        Some(name) => Some(name.as_bytes()),
        None => None,
    };
    let example = read_example_request(name, words.options.broken)?;
    Ok(Job::Example(example))
}

/// Reads the arguments of `serve`.
fn read_serve(words: &Words) -> Result<Job, ValueName>
    ensures { IfOk result IsKnown }
{
    let serve = read_serve_request(&words.values)?;
    match words.options.file {
        Some(_) => Ok(Job::ServeKeys(serve)),
        None => Ok(Job::Serve(serve)),
    }
}

/// Reads the arguments of `faults`.
fn read_faults(words: &Words) -> Result<Job, ValueName>
    ensures { IfOk result IsKnown }
{
    match words.values.first() {
        Some(name) => Ok(Job::Fault(read_fault_name(name.as_bytes())?)),
        None => Ok(Job::Faults),
    }
}

/// Returns the job that the command line asks for, or the first argument or option that is missing or wrong.
pub(crate) fn read_job(words: &Words) -> Result<Job, ValueName>
    ensures asked { IfSome (asked (choice_in words.now)) (λ r. result ≡ r) }
    ensures known { IfOk result IsKnown }
{
    let options = &words.options;
    match words.command {
        Command::Replay => read_replay(&options.lacks),
        Command::Judge => read_judge(options.brief, &options.only),
        Command::Stats => Ok(Job::Stats),
        Command::Check => Ok(Job::Check),
        Command::Show => read_show_job(options),
        Command::Trace => Ok(Job::Trace(Trace {
            chains: options.chain,
            lacks: find_broken(&options.lacks)?,
        })),
        Command::Draft => Ok(Job::Draft),
        Command::Example => read_example(words),
        Command::Gen => Ok(Job::Gen(read_random_request(&words.values)?)),
        Command::Run => Ok(Job::Run(read_lives_request(&words.values)?)),
        Command::Serve => read_serve(words),
        Command::Faults => read_faults(words),
        Command::Explain => Ok(Job::Explain),
    }
}
