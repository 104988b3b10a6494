//! The command line.

ghost use Rattle.std.specs.Prelude.{◌≡◌, map, string_bytes, IfErr, IfOk};
ghost use Rattle.clap.specs.Matches.{found_of};
ghost use Rattle.clap.specs.Simple.{app_of};
ghost use Rattle.clap.specs.Values.{kind_of};
ghost use Rattle.clap.specs.Walk.{rows_of};
ghost use Rattle.chi_engine.specs.Store.{Opens};
ghost use Rattle.chi_home.specs.OptionValues.{HasAttempts, HasOptions, IsChosen, IsNamed, IsNamedFirst, attempts_of, form_of, options_of_task, policy_of, store_of, task_named, workers_of};
ghost use Rattle.chi_home.specs.CommandLine.{IsProgram, IsTaken, IsArgumentsFault};

use crate::generation::{GenerateOptions, generate_options};
use crate::tasks::TASKS;
use chi_bookstore::MOST_ATTEMPTS;
use chi_engine::{Options, Store, Workers};
use chi_program::{has_word, is_switched, program_command};
use chi_requester::Policy;
use clap::error::ErrorKind;
use clap::{ArgMatches, Command, Error};
use std::alloc::Global;

/// How a transcript is written: line by line, or as a JSON object.
#[derive(Clone, Copy)]
pub enum Form {
    Text,
    Json,
}

/// What is done with a script: its requests are executed one after another, for a transcript or for a trace, or raced.
#[derive(Clone, Copy)]
pub enum Task {
    Run(Form),
    Race(Form),
    Trace,
}

/// What the arguments ask for: that a script is executed, or that one is made.
#[derive(Clone, Copy)]
pub enum Job<'a> {
    Work(Task, Options),
    Script(GenerateOptions<'a>),
}

/// The program's name.
pub(crate) const PROGRAM: &str = "chihome";

// What `--version` prints after the program's name.
const VERSION: &str = "0.1.0";

const ABOUT: &str = "Executes the atomics, reads and writes of a script at a CHI home node.";

const MORE: &str =
    "A script on standard input is one JSON object with a region and requests. The transcript on
standard output has a line for each request, and then one for each eight bytes of the
region, which begin as the script's image, or as zeros.

  $ echo '{\"base\":4096,\"granules\":1,\"requests\":[{\"src\":0,\"txn\":1,\"op\":48,\"size\":3,
    \"addr\":4096,\"endian\":0,\"be\":255,\"lanes\":\"01000000000000000000000000000000\"}]}' | chihome run
  0 1 30 AtomicLoad.ADD 3 0000000000001000 data 00000000000000000000000000000000
  m 0000000000001000 0100000000000000

Statuses: 0 done; 2 command line refused; 3 script or opening refused; 4 no memory;
5 a read or a write failed.";

fn whole_command<'a>(alloc: Global) -> Result<Command<'a>, Error>
    ensures app { IfOk result (λ command. IsProgram (app_of command)) }
    ensures memory { IfErr result (λ error. kind_of error ≡ ErrorKind.OutOfMemory) }
{
    program_command(alloc, PROGRAM, VERSION, ABOUT, MORE, &TASKS)
}

// What requesters do after RetryAck.
fn chosen_policy(chosen: &ArgMatches<'_>) -> Policy
    ensures { result ≡ policy_of (rows_of (found_of chosen.now)) }
{
    if has_word(chosen, "policy", "return") {
        Policy::Return
    } else {
        Policy::Resend
    }
}

// How many tries a request gets. `clap` lets no number through that is not 1 to 16.
fn chosen_attempts(chosen: &ArgMatches<'_>) -> u8
    ensures { result ≡ attempts_of (rows_of (found_of chosen.now)) }
{
    let attempts = chosen.get_one::<u8>("attempts").unwrap_or(0);
    if 1 <= attempts && attempts <= MOST_ATTEMPTS {
        attempts
    } else {
        4
    }
}

// The store that a subcommand was given, with its tries.
fn chosen_store(chosen: &ArgMatches<'_>) -> Store
    ensures store { result ≡ store_of (rows_of (found_of chosen.now)) }
    ensures opens { Opens result }
{
    if has_word(chosen, "store", "lock") {
        Store::Lock
    } else {
        Store::Book {
            attempts: chosen_attempts(chosen),
        }
    }
}

// How many workers a race was given. `clap` lets no number through that is not 1 to 7.
fn chosen_workers(chosen: &ArgMatches<'_>) -> Workers
    ensures { result ≡ workers_of (rows_of (found_of chosen.now)) }
{
    let count = chosen.get_one::<u8>("workers").unwrap_or(0);
    Workers::new(count).unwrap_or(Workers::TWO)
}

// The options of a task that a subcommand was given, or that stand in for them.
fn chosen_options(task: Task, chosen: &ArgMatches<'_>) -> Options
    ensures { result ≡ options_of_task task (rows_of (found_of chosen.now)) }
{
    let workers = match task {
        Task::Run(_) | Task::Trace => Workers::TWO,
        Task::Race(_) => chosen_workers(chosen),
    };
    Options {
        store: chosen_store(chosen),
        policy: chosen_policy(chosen),
        workers,
    }
}

// How a transcript is written.
fn chosen_form(chosen: &ArgMatches<'_>) -> Form
    ensures { result ≡ form_of (rows_of (found_of chosen.now)) }
{
    if has_word(chosen, "format", "json") {
        Form::Json
    } else {
        Form::Text
    }
}

// The task of this name, with its options.
fn chosen_task(name: &str, chosen: &ArgMatches<'_>) -> Task
    ensures { result ≡ task_named name.now (rows_of (found_of chosen.now)) }
{
    if name == "race" {
        Task::Race(chosen_form(chosen))
    } else if is_switched(chosen, "trace") {
        Task::Trace
    } else {
        Task::Run(chosen_form(chosen))
    }
}

// What the subcommand of this name asks for, with its options.
fn chosen_asked<'a>(name: &str, chosen: &ArgMatches<'a>) -> Job<'a>
    ensures named { IsNamed name.now result }
    ensures options { HasOptions (rows_of (found_of chosen.now)) name.now result }
    ensures attempts { HasAttempts result }
{
    if name == "generate" {
        Job::Script(generate_options(chosen))
    } else {
        let task = chosen_task(name, chosen);
        Job::Work(task, chosen_options(task, chosen))
    }
}

/// Reads the arguments after the program's name: `run`, `race` or `generate`, and its options.
///
/// Which arguments are refused, and as what, and which task and options the others name, `clap`'s definitions say of
/// the program's command line. That `clap` refuses a value that an option does not have no contract says;
/// `tests/cases/chihome` shows it.
///
/// ```
/// let job = job_of(alloc, &arguments)?; // race --store lock --policy return
/// ```
pub fn job_of(alloc: Global, arguments: &[String]) -> Result<Job<'_>, Error>
    ensures chosen { IfOk result (λ job. IsChosen (map string_bytes arguments.now) job) }
    ensures first { IfOk result (λ job. IsNamedFirst (map string_bytes arguments.now) job) }
    ensures attempts { IfOk result HasAttempts }
    ensures taken { IfOk result (λ _. IsTaken (map string_bytes arguments.now)) }
    ensures refused { IfErr result (λ error. IsArgumentsFault (map string_bytes arguments.now) (kind_of error)) }
{
    let matches = whole_command(alloc)?.try_get_matches_from(arguments)?;
    let Some((name, chosen)) = matches.subcommand() else {
        unreachable!()
    };
    Ok(chosen_asked(name, chosen))
}
