//! The command line of both programs, and what they do with its arguments and with a fault.
#![tactic(auto)]

mod arguments;
mod command;
mod fault;
mod option_values;
mod options;
mod task;

pub use arguments::{arguments_after_name, report_arguments, report_no_arguments};
pub use command::program_command;
pub use fault::{ProgramFault, flushed_status, report_fault};
pub use option_values::{has_word, is_switched, number_given, number_or, text_given};
pub use task::{NamedOption, NamedTask, Takes};
