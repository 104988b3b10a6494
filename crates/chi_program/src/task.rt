//! The tasks that a command line names, and their options.

ghost use Rattle.std.specs.Prelude.{◌≡◌, false, IfErr, IfOk};
ghost use Rattle.clap.specs.Simple.{app_of};
ghost use Rattle.clap.specs.Values.{kind_of};
ghost use Rattle.clap.specs.Walk.{rule_of};
ghost use Rattle.chi_program.specs.Tasks.{taking_rule, task_app, word_rule, words_rule};

use crate::options::{number_option, number_option_or, switch, text_option, value_option_or};
use clap::builder::ValueParser;
use clap::error::ErrorKind;
use clap::{Arg, ArgAction, Command, Error};
use std::alloc::Global;

/// What an option takes: nothing, where it is there or not; any text; a whole number; or a value that its parser lets through. `Word`
/// is one that belongs to no option, where there is one, and `Words` are all such. The first text stands for the value in the help, and after `Or` the last one stands in for it.
#[derive(Clone, Copy)]
pub enum Takes<'a> {
    Nothing,
    Text(&'a str),
    TextOr(&'a str, &'a str),
    Number(&'a str),
    NumberOr(&'a str, &'a str),
    ValueOr(&'a str, ValueParser<'a>, &'a str),
    Word(&'a str),
    Words(&'a str),
}

/// An option of a task: its name, what it takes, and what it is for.
#[derive(Clone, Copy)]
pub struct NamedOption<'a> {
    pub name: &'a str,
    pub takes: Takes<'a>,
    pub help: &'a str,
}

/// A task of a program: its name, what it is for, and its options.
#[derive(Clone, Copy)]
pub struct NamedTask<'a> {
    pub name: &'a str,
    pub about: &'a str,
    pub options: &'a [NamedOption<'a>],
}

// A word that belongs to no option.
fn word_argument<'a>(alloc: Global, name: &'a str, value: &'a str, help: &'a str) -> Arg<'a>
    ensures rule { rule_of result ≡ word_rule name.now }
    ensures local { result.global ≡ false }
{
    Arg::new(alloc, name).value_name(value).help(help)
}

// All words that belong to no option.
fn words_argument<'a>(alloc: Global, name: &'a str, value: &'a str, help: &'a str) -> Arg<'a>
    ensures rule { rule_of result ≡ words_rule name.now }
    ensures local { result.global ≡ false }
{
    Arg::new(alloc, name)
        .value_name(value)
        .action(ArgAction::Append)
        .help(help)
}

// The option, as `clap` has it.
fn option_of<'a>(alloc: Global, option: NamedOption<'a>) -> Arg<'a>
    ensures rule { rule_of result ≡ taking_rule option.entry.name.now option.entry.takes }
    ensures local { result.global ≡ false }
{
    let NamedOption { name, takes, help } = option;
    match takes {
        Takes::Nothing => switch(alloc, name, help),
        Takes::Text(value) => text_option(alloc, name, value, help),
        Takes::TextOr(value, other) => text_option(alloc, name, value, help).default_value(other),
        Takes::Number(value) => number_option(alloc, name, value, help),
        Takes::NumberOr(value, other) => number_option_or(alloc, name, value, other, help),
        Takes::ValueOr(value, parser, other) => {
            value_option_or(alloc, name, value, parser, other, help)
        }
        Takes::Word(value) => word_argument(alloc, name, value, help),
        Takes::Words(value) => words_argument(alloc, name, value, help),
    }
}

/// The task, as `clap` has it.
pub(crate) fn task_command<'a>(alloc: Global, task: &NamedTask<'a>) -> Result<Command<'a>, Error>
    ensures app { IfOk result (λ command. app_of command ≡ task_app task.now) }
    ensures memory { IfErr result (λ error. kind_of error ≡ ErrorKind.OutOfMemory) }
{
    let options = task.options;
    let mut command = Command::new(alloc, task.name).about(task.about);
    for option in options {
        command = command.arg(option_of(alloc, *option))?;
    }
    Ok(command)
}
