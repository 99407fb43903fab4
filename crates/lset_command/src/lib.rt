//! Parses the program's command line into a command with its arguments, flags and options.
#![tactic(auto)]

mod command_line;
mod table;

pub use command_line::{
    Helps, Options, VERSION, Words, commands_are_named, is_out_of_memory, words_given,
};
pub use table::{ArgumentRow, COMMANDS, Command, CommandRow, Form, LACKS_HELP};
