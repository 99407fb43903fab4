//! The table of the program's commands. The command-line parser, the help texts and the definition in `specs/` are
//! derived from the table. (The rows are tuples, because a definition in `specs/` cannot read a constant of a struct
//! that contains a reference.)

/// A command of the program.
#[derive(Clone, Copy)]
pub enum Command {
    /// Replays a schedule. `Replay` is the default command.
    Replay,
    /// Decides whether some order explains recorded calls.
    Judge,
    /// Counts recorded calls.
    Stats,
    /// Checks the order of a report.
    Check,
    /// Draws a schedule or a report.
    Show,
    /// Prints a line for each event of a schedule.
    Trace,
    /// Turns a draft (a schedule that can state where a thread stops) into a schedule.
    Draft,
    /// Prints an example schedule.
    Example,
    /// Generates a schedule.
    Gen,
    /// Makes random calls on one set from several threads.
    Run,
    /// Serves one set to clients on the loopback interface.
    Serve,
    /// Explains all error messages, or the error messages with one cause.
    Faults,
    /// Explains the first error in a file.
    Explain,
}

/// The form of an argument on the command line.
#[derive(Clone, Copy)]
pub enum Form {
    /// A value, identified by its position.
    Value,
    /// `--NAME`.
    Flag,
    /// `--NAME VALUE`.
    ValueOption,
}

/// An argument of a command: its name, its form, its value's name if it is an option (otherwise empty), and its help
/// text.
pub type ArgumentRow = (&'static str, Form, &'static str, &'static str);

/// A command, with:
/// - its name;
/// - its line in the list of commands, which is also the first line of its help;
/// - its arguments, in the order of the help (values are typed in this order);
/// - its usage, or `None` if `clap` writes the usage (with each value in brackets);
/// - the end of its help: notes, an example, and the form of an error message.
pub type CommandRow = (
    Command,
    &'static str,
    &'static str,
    &'static [ArgumentRow],
    Option<&'static str>,
    &'static str,
);

/// The help of the option `--lacks`. The names of the broken lists (lists without one of their checks) follow.
pub const LACKS_HELP: &str = "Run a broken list, with one check removed";

// Arguments that several commands share.
const KIND: ArgumentRow = (
    "KIND",
    Form::Value,
    "",
    "List: coarse, fine, optimistic, lazy or lock-free",
);

const THREADS: ArgumentRow = ("THREADS", Form::Value, "", "Number of threads: 1 to 64");

const QUOTA: ArgumentRow = (
    "QUOTA",
    Form::Value,
    "",
    "Successful adds allowed per thread: 0 to 16384",
);

const KEYS: ArgumentRow = (
    "KEYS",
    Form::Value,
    "",
    "Number of keys, counted from 0, to draw from: 1 to 4294967295",
);

const SEED: ArgumentRow = (
    "SEED",
    Form::Value,
    "",
    "Seed of the random draws: 0 to 18446744073709551615",
);

const SCHEDULE: ArgumentRow = (
    "FILE",
    Form::Value,
    "",
    "Schedule file; standard input if - or missing",
);

const RECORDING: ArgumentRow = (
    "FILE",
    Form::Value,
    "",
    "File of recorded calls; standard input if - or missing",
);

const LACKS: ArgumentRow = ("lacks", Form::ValueOption, "NAME", LACKS_HELP);

/// The commands, in the order of the help. The first command is the default.
pub const COMMANDS: &[CommandRow] = &[
    (
        Command::Replay,
        "replay",
        "Execute a schedule of atomic steps and print its report (the default command)",
        &[SCHEDULE, LACKS],
        None,
        "Example: listset example full | listset replay\n\nAn error is one line, such as 'line 5: Idle'; listset faults Idle explains it.",
    ),
    (
        Command::Judge,
        "judge",
        "Judge recorded calls of a set: ok if an order explains them and the final keys, else not linearizable",
        &[
            RECORDING,
            (
                "brief",
                Form::Flag,
                "",
                "Print only the verdict and its numbers, no diagnosis and no advice",
            ),
            (
                "only",
                Form::ValueOption,
                "KEY",
                "Print a recording of one key alone, or of the few calls that show its refusal",
            ),
        ],
        None,
        "A recording is judged as it is read, and can have any length. Below 'not linearizable' come the calls that show it and, for a file, what is wrong. Exit status 0 for ok, 1 for not linearizable.\n\nExample: listset judge a.calls\n\nAn error is one line, such as 'line 5: Line'; listset faults Line explains it.",
    ),
    (
        Command::Stats,
        "stats",
        "Count recorded calls: by operation and reply, pending at once, and those that overlap",
        &[RECORDING],
        None,
        "Example: listset stats a.calls\n\nAn error is one line, such as 'line 5: Line'; listset faults Line explains it.",
    ),
    (
        Command::Check,
        "check",
        "Check the order in a report: ok, or its first fault",
        &[(
            "FILE",
            Form::Value,
            "",
            "Report file; standard input if - or missing",
        )],
        None,
        "Example: listset example full | listset replay | listset check\n\nAn error is one line, such as 'line 5: Line'; listset faults Line explains it.",
    ),
    (
        Command::Show,
        "show",
        "Draw a schedule or a report: a bar for each call, with the point at which it takes effect",
        &[
            (
                "FILE",
                Form::Value,
                "",
                "Schedule or report file; standard input if - or missing",
            ),
            ("svg", Form::Flag, "", "Draw an SVG instead of text"),
            (
                "from",
                Form::ValueOption,
                "M",
                "First moment to draw: 1 to the last one at which a call begins, takes effect or ends [default: 1]",
            ),
            (
                "to",
                Form::ValueOption,
                "M",
                "Last moment to draw: the first or a later one [default: 4294967295]",
            ),
            (
                "width",
                Form::ValueOption,
                "N",
                "Maximum width of the text in characters: 1 to 4294967295 [default: 100]",
            ),
            LACKS,
        ],
        None,
        "If an event of the schedule is not enabled, the picture ends before it, the last line names it, and the exit status is 1. With --lacks only that line is printed.\n\nExample: listset example read-in-anothers-step | listset show --from 9 --to 38\n\nAn error is one line, such as 'line 5: Idle'; listset faults Idle explains it.",
    ),
    (
        Command::Trace,
        "trace",
        "Print each step of a schedule: the word accessed, the value seen, what changed",
        &[
            SCHEDULE,
            (
                "chain",
                Form::Flag,
                "",
                "Print the chain after each step that changed it",
            ),
            LACKS,
        ],
        None,
        "Example: listset example two-removers | listset trace --chain\n\nAn error is one line, such as 'line 5: Idle'; listset faults Idle explains it.",
    ),
    (
        Command::Draft,
        "draft",
        "Turn a draft into a schedule: lines that say where a thread stops become numbers of steps",
        &[(
            "FILE",
            Form::Value,
            "",
            "Draft file; standard input if - or missing",
        )],
        None,
        "Example: listset draft a.draft | listset show\n\nAn error is one line, such as 'line 5: Idle'; listset faults Idle explains it.",
    ),
    (
        Command::Example,
        "example",
        "Print a classic schedule, or the list of their names",
        &[
            (
                "NAME",
                Form::Value,
                "",
                "Name of the schedule; without it the list of names is printed",
            ),
            (
                "broken",
                Form::Flag,
                "",
                "Print the report that a broken list would produce, if the example has one",
            ),
        ],
        None,
        "Example: listset example snip | listset show\n\nAn error is one line, such as 'bad NAME'; listset example lists the names.",
    ),
    (
        Command::Gen,
        "gen",
        "Print a random schedule of at most 10000 events; the same arguments give the same schedule",
        &[
            KIND,
            THREADS,
            QUOTA,
            (
                "CALLS",
                Form::Value,
                "",
                "Calls in all threads together, if 10000 events suffice: 0 to 10000",
            ),
            KEYS,
            SEED,
        ],
        Some("listset gen KIND THREADS QUOTA CALLS KEYS SEED"),
        "Example: listset gen optimistic 3 4 9 5 1 | listset replay\n\nAn error is one line, such as 'bad SEED'; its range is above.",
    ),
    (
        Command::Run,
        "run",
        "Run random calls in threads on one set, and print counts of the replies and the remaining keys",
        &[
            KIND,
            THREADS,
            QUOTA,
            ("CALLS", Form::Value, "", "Calls in each thread: 0 to 10000"),
            KEYS,
            SEED,
            (
                "LIVES",
                Form::Value,
                "",
                "Number of rounds, each on a set that opens with the keys of the round before: 1 to 100 [default: 1]",
            ),
        ],
        Some("listset run KIND THREADS QUOTA CALLS KEYS SEED [LIVES]"),
        "Example: listset run lock-free 4 1000 10000 64 1\n\nAn error is one line, such as 'bad SEED'; its range is above.",
    ),
    (
        Command::Serve,
        "serve",
        "Serve one set to clients on 127.0.0.1, and print the remaining keys at the end",
        &[
            KIND,
            (
                "SEATS",
                Form::Value,
                "",
                "Number of clients that are served at once: 1 to 64",
            ),
            (
                "QUOTA",
                Form::Value,
                "",
                "Successful adds allowed per seat: 0 to 16384",
            ),
            (
                "PORT",
                Form::Value,
                "",
                "Port to listen on: 0 to 65535; with 0 the system chooses",
            ),
            (
                "SESSIONS",
                Form::Value,
                "",
                "Number of client connections to serve before the end: 0 to 10000",
            ),
            (
                "FILE",
                Form::Value,
                "",
                "File with the opening keys, in the format that a server prints; - for standard input; no keys if missing",
            ),
        ],
        Some("listset serve KIND SEATS QUOTA PORT SESSIONS [FILE]"),
        "Example: listset serve lazy 2 16 4000 1\n\nAn error is one line, such as 'bad PORT'; its range is above.",
    ),
    (
        Command::Faults,
        "faults",
        "Explain every error message, or those with one cause",
        &[(
            "CAUSE",
            Form::Value,
            "",
            "Cause in an error line, such as Idle; without it every message is explained",
        )],
        None,
        "",
    ),
    (
        Command::Explain,
        "explain",
        "Explain the first error of a file: its line, what is wrong there, and what to do",
        &[(
            "FILE",
            Form::Value,
            "",
            "File of any kind that a command reads; standard input if - or missing",
        )],
        None,
        "Example: listset explain a.schedule",
    ),
];
