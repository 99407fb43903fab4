//! The errors that end the program, each with its exit status.

ghost use Rattle.std.specs.Prelude.{◌≡◌, ◌≤◌, length};
ghost use Rattle.tool_base.specs.Trouble.{of_generator, of_line_fault, status_of, system_name, value_word};
ghost use Rattle.tool_base.specs.declared.trouble.Trouble.TheVariants.{Bad, Memory};

use lset_schedule::GenFault;
use lset_text::{Cause, LineFault};
use std::alloc::{AllocError, AllocFailed};

/// An argument or option of a command.
#[derive(Clone, Copy)]
pub enum ValueName {
    Kind,
    Threads,
    Quota,
    Calls,
    Keys,
    Seed,
    Lives,
    Seats,
    Port,
    Sessions,
    Name,
    /// The argument NAME of `example --broken` is an example without a report of a broken list (a list without one of
    /// its checks).
    Unbroken,
    Lacks,
    From,
    To,
    Width,
    Key,
    Cause,
}

/// Why `run` could not complete all calls of its threads, or `serve` could not complete all its connections. (A failed
/// allocation is not listed: its error is `Trouble::Memory`.)
#[derive(Clone, Copy)]
pub enum SystemCause {
    /// The number of programs (the calls of one thread each) differs from the number of seats, or some seats of the set
    /// are missing. (A seat is a thread's handle to the set.)
    Programs,
    /// The gate, a callback that is asked before each call, did not permit a call.
    Gate,
    /// After a round (the calls on one set), the set had more keys than a set for the next round can open with.
    Opening,
    /// Some seats of the set are missing. (A seat is a thread's handle to the set.)
    Seats,
    /// The system did not accept a connection.
    Accept,
    /// The system could not start a thread.
    Spawn,
    /// A connection could not be sent to the worker threads.
    Send,
    /// The worker threads received fewer connections than the server accepted.
    Left,
}

/// An error that ends the program and prints a line on stderr.
#[derive(Clone, Copy)]
pub enum Trouble {
    /// A file could not be opened, or a read failed.
    CannotRead,
    /// The input is longer than the maximum.
    TooLong,
    /// A write failed, or wrote no byte.
    CannotWrite,
    /// An allocation failed.
    Memory,
    /// A line of the input is wrong. Contains its number, counted from 1, and the cause.
    Line(u64, Cause),
    /// An argument or an option of the command line is missing or wrong.
    Bad(ValueName),
    /// The system did not let the program listen on the port.
    CannotListen,
    /// A thread of `run` could not start or complete its calls, or the set could not be opened.
    Work(SystemCause),
    /// The command `serve` could not serve all of its connections.
    Serve(SystemCause),
}

impl Trouble {
    /// Returns the program's exit status for the error: 1, 2 or 3.
    pub fn status(self) -> u8
        ensures { result ≡ status_of self }
    {
        match self {
            Trouble::Memory => 3,
            Trouble::Bad(_) => 2,
            Trouble::CannotRead
            | Trouble::TooLong
            | Trouble::CannotWrite
            | Trouble::CannotListen
            | Trouble::Line(_, _)
            | Trouble::Work(_)
            | Trouble::Serve(_) => 1,
        }
    }
}

impl From<LineFault> for Trouble {
    ghost from_gives = { λ e t. t ≡ of_line_fault e };

    fn from(fault: LineFault) -> Trouble {
        match fault.cause {
            Cause::Memory => Trouble::Memory,
            cause => Trouble::Line(fault.line, cause),
        }
    }
}

impl From<ValueName> for Trouble {
    ghost from_gives = { λ name t. t ≡ Bad name };

    fn from(name: ValueName) -> Trouble {
        Trouble::Bad(name)
    }
}

impl From<GenFault> for Trouble {
    ghost from_gives = { λ e t. t ≡ of_generator e };

    fn from(fault: GenFault) -> Trouble {
        match fault {
            GenFault::Threads => Trouble::Bad(ValueName::Threads),
            GenFault::Quota => Trouble::Bad(ValueName::Quota),
            GenFault::Keys => Trouble::Bad(ValueName::Keys),
            GenFault::Memory => Trouble::Memory,
        }
    }
}

impl From<AllocError> for Trouble {
    ghost from_gives = { λ _ t. t ≡ Memory };

    fn from(_refused: AllocError) -> Trouble {
        Trouble::Memory
    }
}

impl<T: Drop> From<AllocFailed<T>> for Trouble {
    ghost from_gives = { λ _ t. t ≡ Memory };

    fn from(_refused: AllocFailed<T>) -> Trouble {
        Trouble::Memory
    }
}

impl ValueName {
    /// Returns the name that error messages on stderr use for the argument or option.
    pub fn word(self) -> &'static str
        ensures word { result.now ≡ value_word self }
        ensures short { length result.now ≤ 45 }
    {
        match self {
            ValueName::Kind => "KIND",
            ValueName::Threads => "THREADS",
            ValueName::Quota => "QUOTA",
            ValueName::Calls => "CALLS",
            ValueName::Keys => "KEYS",
            ValueName::Seed => "SEED",
            ValueName::Lives => "LIVES",
            ValueName::Seats => "SEATS",
            ValueName::Port => "PORT",
            ValueName::Sessions => "SESSIONS",
            ValueName::Name => "NAME",
            ValueName::Unbroken => "NAME: this example has no broken report",
            ValueName::Lacks => "NAME: 'listset help replay' lists the names",
            ValueName::From => "FROM",
            ValueName::To => "TO",
            ValueName::Width => "WIDTH",
            ValueName::Key => "KEY",
            ValueName::Cause => "CAUSE",
        }
    }
}

impl SystemCause {
    /// Returns the name of the cause, as printed in `listset: work: CAUSE` and `listset: serve: CAUSE`.
    pub fn name(self) -> &'static str
        ensures name { result.now ≡ system_name self }
        ensures short { length result.now ≤ 8 }
    {
        match self {
            SystemCause::Programs => "Programs",
            SystemCause::Gate => "Gate",
            SystemCause::Opening => "Opening",
            SystemCause::Seats => "Seats",
            SystemCause::Accept => "Accept",
            SystemCause::Spawn => "Spawn",
            SystemCause::Send => "Send",
            SystemCause::Left => "Left",
        }
    }
}
