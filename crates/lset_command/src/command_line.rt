ghost use Rattle.std.specs.Prelude.{◌≡◌, ◌++◌, ◌↔◌, [], IfOk, IsTrue, OnOk, codes, false, fold, map, option_map, string_bytes};
ghost use Rattle.clap.specs.Words.{App, FailsBy, app_of, fault_of, found_of, kind_of, new_app, new_rule, rows_of, rule_of, subcommand_of};
ghost use Rattle.clap.specs.Walk.{first_of, texts};
ghost use Rattle.clap.specs.declared.error.kind.ErrorKind.TheVariants.{OutOfMemory};
ghost use Rattle.lset_command.specs.CommandLine.{app_in, argument_of, choice_in, choice_of, command_in, flag_rule, is_on, is_option, listset, option_rule, options_in, options_of, path_of, row_of, rule_by};
ghost use Rattle.lset_command.specs.CommandLine.{IsApp, Makes, MakesWithArg, CommandsAreNamed, MakesWithSubcommand, NamesDiffer, values_by, values_in, with_argument, with_command};

use crate::table::{ArgumentRow, COMMANDS, Command, CommandRow, Form};
use clap::error::ErrorKind;
use clap::{Arg, ArgAction, ArgMatches, Error};
use std::alloc::{AllocError, Global};

/// The text that `--version` prints after the program's name. The text consists of the version, the Rattle kit, and the
/// logic with which the program was proved.
pub const VERSION: &str = "0.1.0\nRattle kit 13, logic dac8208d650f15bf";

/// Help texts that other crates compute.
#[derive(Clone, Copy)]
pub struct Helps<'a> {
    /// The help for the command `faults`.
    pub faults: &'a str,
    /// The help for the option `--lacks`, which contains the names of the broken lists (lists without one of their
    /// checks).
    pub lacks: &'a str,
}

/// The flags that are on, and the values of the options as they were typed. If a command does not have a flag or an
/// option, the flag is off and the option is `None`.
#[derive(Drop)]
pub struct Options {
    /// The argument FILE, which is also in `values` of `Words`. Without FILE, `serve` reads no input, and the other
    /// commands that have the argument FILE read standard input.
    pub file: Option<String>,
    /// Whether `show` draws an SVG.
    pub svg: bool,
    /// The first moment that `show` draws. (A moment is the number of a step or of a call's start in the run.)
    pub from: Option<String>,
    /// The last moment that `show` draws. (A moment is the number of a step or of a call's start in the run.)
    pub to: Option<String>,
    /// The maximum width of the picture that `show` draws as text, in characters.
    pub width: Option<String>,
    /// Whether `judge` prints only the verdict, without an explanation.
    pub brief: bool,
    /// The value of `--only`: a key. `judge` then prints only the calls on this key.
    pub only: Option<String>,
    /// Whether `trace` prints the chain of nodes.
    pub chain: bool,
    /// Whether `example` prints the report of a broken list (a list without one of its checks).
    pub broken: bool,
    /// The name of the broken list (a list without one of its checks) that `replay`, `show` and `trace` use.
    pub lacks: Option<String>,
}

/// A command, its arguments as they were typed, its flags and its options.
#[derive(Drop)]
pub struct Words {
    pub command: Command,
    pub values: Vec<String>,
    pub options: Options,
}

impl Words {
    /// Returns the path of the file that the command reads, or `None` if the command line has no path. The argument `-`
    /// means standard input. (The path of a file named `-` is `./-`.)
    pub fn path(&self) -> Option<&str>
        ensures { option_map (λ path. path.now) result ≡ path_of (choice_in self.now) }
    {
        let word = self.options.file.as_ref()?.as_str();
        if word == "-" { None } else { Some(word) }
    }
}

// Creates an optional argument that is identified by its position, such as FILE.
fn value<'a>(alloc: Global, name: &'a str, help: &'a str) -> Arg<'a>
    ensures rule { rule_of result ≡ new_rule name.entry.now }
    ensures local { result.global ≡ false }
{
    Arg::new(alloc, name).help(help)
}

fn flag<'a>(alloc: Global, name: &'a str, help: &'a str) -> Arg<'a>
    ensures rule { rule_of result ≡ flag_rule name.entry.now }
    ensures local { result.global ≡ false }
{
    Arg::new(alloc, name)
        .long(name)
        .action(ArgAction::SetTrue)
        .help(help)
}

// Creates an option with one value: `--NAME VALUE`.
fn value_option<'a>(alloc: Global, name: &'a str, value_name: &'a str, help: &'a str) -> Arg<'a>
    ensures rule { rule_of result ≡ option_rule name.entry.now }
    ensures local { result.global ≡ false }
{
    Arg::new(alloc, name)
        .long(name)
        .value_name(value_name)
        .help(help)
}

// Adds `arg` to `command`, or returns the error if `command` is an error. With `?` in the callers instead, each early
// return would drop all arguments, and most of the proof would be about dropping them.
fn and_arg<'a>(
    command: Result<clap::Command<'a>, AllocError>,
    arg: Arg<'a>,
) -> Result<clap::Command<'a>, AllocError>
    ensures { MakesWithArg command.entry arg.entry result }
{
    command?.arg(arg)
}

// Adds `subcommand` to `command`. If one of them is an error, returns the error.
fn and_subcommand<'a>(
    command: Result<clap::Command<'a>, AllocError>,
    subcommand: Result<clap::Command<'a>, AllocError>,
) -> Result<clap::Command<'a>, AllocError>
    ensures { MakesWithSubcommand command.entry subcommand.entry result }
{
    command?.subcommand(subcommand?)
}

// Creates the argument that a row of the table describes.
fn arg_of<'a>(alloc: Global, row: &'a ArgumentRow, helps: Helps<'a>) -> Arg<'a>
    ensures rule { rule_of result ≡ rule_by row.entry.now.0.now row.entry.now.1 }
    ensures local { result.global ≡ false }
{
    let (name, form, value_name, help) = *row;
    let help = if name == "lacks" { helps.lacks } else { help };
    match form {
        Form::Value => value(alloc, name, help),
        Form::Flag => flag(alloc, name, help),
        Form::ValueOption => value_option(alloc, name, value_name, help),
    }
}

// Adds an argument to `command` for each row of the table. If `command` is an error, returns the error.
fn with_arguments<'a>(
    alloc: Global,
    command: Result<clap::Command<'a>, AllocError>,
    rows: &'a [ArgumentRow],
    helps: Helps<'a>,
) -> Result<clap::Command<'a>, AllocError>
    ensures { (a : App) → Makes command.entry a → Makes result (fold with_argument a (map argument_of rows.entry.now)) }
{
    let mut command = command;
    for row in rows {
        command = and_arg(command, arg_of(alloc, row, helps));
    }
    command
}

// Replaces clap's usage text by `usage`, unless `usage` is `None`.
fn with_usage<'a>(command: clap::Command<'a>, usage: Option<&'a str>) -> clap::Command<'a>
    ensures { (a : App) → IsApp command.entry a → IsApp result a }
{
    match usage {
        Some(usage) => command.override_usage(usage),
        None => command,
    }
}

// Replaces clap's help text by `helps.faults` if `name` is `faults`.
fn with_help<'a>(command: clap::Command<'a>, name: &str, helps: Helps<'a>) -> clap::Command<'a>
    ensures { (a : App) → IsApp command.entry a → IsApp result a }
{
    if name == "faults" {
        command.override_help(helps.faults)
    } else {
        command
    }
}

// Creates a command with its help texts, but without arguments.
fn bare_command<'a>(alloc: Global, row: &'a CommandRow, helps: Helps<'a>) -> clap::Command<'a>
    ensures { IsApp result (new_app row.entry.now.1.now) }
{
    let (_, name, about, _, usage, notes) = *row;
    let command = clap::Command::new(alloc, name)
        .about(about)
        .after_help(notes);
    let command = with_usage(command, usage);
    with_help(command, name, helps)
}

// Creates the command that a row of the table describes.
fn command_of<'a>(
    alloc: Global,
    row: &'a CommandRow,
    helps: Helps<'a>,
) -> Result<clap::Command<'a>, AllocError>
    ensures { Makes result (app_in (row_of row.entry.now)) }
{
    let command = bare_command(alloc, row, helps);
    with_arguments(alloc, Ok(command), row.3, helps)
}

// Adds a subcommand to `program` for each row of the table. If `program` is an error, returns the error.
fn with_commands<'a>(
    alloc: Global,
    program: Result<clap::Command<'a>, AllocError>,
    rows: &'a [CommandRow],
    helps: Helps<'a>,
) -> Result<clap::Command<'a>, AllocError>
    ensures { (a : App) → Makes program.entry a → Makes result (fold with_command a (map row_of rows.entry.now)) }
{
    let mut program = program;
    for row in rows {
        program = and_subcommand(program, command_of(alloc, row, helps));
    }
    program
}

fn program_command<'a>(alloc: Global, helps: Helps<'a>) -> Result<clap::Command<'a>, AllocError>
    ensures { IfOk result (λ c. app_of c ≡ listset) }
{
    let program = clap::Command::new(alloc, "listset")
        .about("Replay, judge, draw, run and serve concurrent list sets")
        .after_help(
            "listset --version --long also prints the commit, and whether the program is proved.\n\nAn error is one line, such as 'line 5: Idle'; listset faults Idle explains it.",
        )
        .version(VERSION)
        .no_binary_name(true)
        .bin_name("listset");
    with_commands(alloc, program, COMMANDS, helps)
}

// Returns `true` if `name` is the name of a flag or an option.
fn is_option(name: &str) -> bool
    ensures { result ≡ is_option name.now }
{
    matches!(
        name,
        "svg" | "from" | "to" | "width" | "brief" | "only" | "chain" | "broken" | "lacks"
    )
}

// Appends the values that `clap` found for the argument `name`. Appends nothing if `name` is a flag or an option, or if
// no value was found.
fn push_values(
    alloc: Global,
    values: &mut Vec<String>,
    found: &ArgMatches<'_>,
    name: &str,
) -> Result<(), AllocError>
    ensures { OnOk result (map string_bytes values.new.items
        ≡ map string_bytes values.old.items ++ values_by name.now (rows_of (found_of found.now))) }
{
    if is_option(name) {
        return Ok(());
    }
    let Some(texts) = found.get_strs(name) else {
        return Ok(());
    };
    for text in texts {
        values.push(String::from_str(alloc, text)?)?;
    }
    Ok(())
}

fn values_of(alloc: Global, found: &ArgMatches<'_>) -> Result<Vec<String>, AllocError>
    ensures { IfOk result (λ v. map string_bytes v.items ≡ values_in (rows_of (found_of found.now))) }
{
    let mut values = Vec::new(alloc);
    for name in found.ids() {
        push_values(alloc, &mut values, found, name)?;
    }
    Ok(values)
}

// Returns `true` if the flag `name` is on.
fn is_on(found: &ArgMatches<'_>, name: &str) -> bool
    ensures { result ≡ is_on name.now (rows_of (found_of found.now)) }
{
    match found.get_str(name) {
        Some(text) => text == "true",
        None => false,
    }
}

// Returns the value of an option, or `None` if the option is missing.
fn option_text(
    alloc: Global,
    found: &ArgMatches<'_>,
    name: &str,
) -> Result<Option<String>, AllocError>
    ensures { IfOk result (λ text. option_map string_bytes text ≡ first_of name.now (rows_of (found_of found.now))) }
{
    match found.get_str(name) {
        Some(text) => Ok(Some(String::from_str(alloc, text)?)),
        None => Ok(None),
    }
}

fn options_of(alloc: Global, found: &ArgMatches<'_>) -> Result<Options, AllocError>
    ensures { IfOk result (λ o. options_of o ≡ options_in (rows_of (found_of found.now))) }
{
    Ok(Options {
        file: option_text(alloc, found, "FILE")?,
        svg: is_on(found, "svg"),
        from: option_text(alloc, found, "from")?,
        to: option_text(alloc, found, "to")?,
        width: option_text(alloc, found, "width")?,
        brief: is_on(found, "brief"),
        only: option_text(alloc, found, "only")?,
        chain: is_on(found, "chain"),
        broken: is_on(found, "broken"),
        lacks: option_text(alloc, found, "lacks")?,
    })
}

// Returns options with all flags off and all values missing.
fn no_options() -> Options
    ensures { options_of result ≡ options_in [] }
{
    Options {
        file: None,
        svg: false,
        from: None,
        to: None,
        width: None,
        brief: false,
        only: None,
        chain: false,
        broken: false,
        lacks: None,
    }
}

// Returns the command named `name`, or `Replay`, the default command, if no row of `rows` has that name.
fn command_in(name: &str, rows: &[CommandRow]) -> Command
    ensures { result ≡ command_in name.now (map row_of rows.now) }
{
    for row in rows {
        if row.1 == name {
            return row.0;
        }
    }
    Command::Replay
}

/// Lemma: the table contains each command with its name and its arguments, and no two commands have the same name.
pub fn commands_are_named()
    ensures named { CommandsAreNamed }
    ensures differ { NamesDiffer }
{}

/// Parses the command line, without the program's name, with `clap`.
///
/// An empty command line means `replay` without arguments. Arguments and options are returned as typed: they can be
/// missing or wrong. An argument of two or more characters that begins with `-` must follow `--`. Allocates.
///
/// # Errors
///
/// The error has the text for the user and an exit code:
/// - 0: the user asked for the help or the version;
/// - 2: the command line is wrong, and the text states the mistake;
/// - any, if `is_out_of_memory` returns `true`: an allocation failed.
pub fn words_given<'a>(
    alloc: Global,
    words: &'a [&'a str],
    helps: Helps<'a>,
) -> Result<Words, Error>
    ensures taken { IfOk result (λ w. choice_in w ≡ choice_of (subcommand_of listset (texts words.entry.now))) }
    // Returns a command only if a parse by clap's definition succeeds. The kind of an error is the kind that clap's
    // definition states, or `OutOfMemory` if an allocation failed.
    ensures refused { FailsBy (fault_of listset (texts words.entry.now)) result }
{
    let matches = program_command(alloc, helps)?.try_get_matches_from(words)?;
    let Some((name, found)) = matches.subcommand() else {
        return Ok(Words {
            command: Command::Replay,
            values: Vec::new(alloc),
            options: no_options(),
        });
    };
    let values = values_of(alloc, found)?;
    let options = options_of(alloc, found)?;
    let command = command_in(name, COMMANDS);
    Ok(Words {
        command,
        values,
        options,
    })
}

/// Returns `true` if `error`, an error of `words_given`, means that an allocation failed.
pub fn is_out_of_memory(error: &Error) -> bool
    ensures { IsTrue result ↔ (kind_of error.now ≡ OutOfMemory) }
{
    error.kind() == ErrorKind::OutOfMemory
}
