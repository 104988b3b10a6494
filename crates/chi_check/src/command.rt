//! The command line.

ghost use Rattle.std.specs.Prelude.{◌≡◌, map, string_bytes, IfErr, IfOk};
ghost use Rattle.clap.specs.Matches.{found_of};
ghost use Rattle.clap.specs.Simple.{app_of};
ghost use Rattle.clap.specs.Values.{kind_of};
ghost use Rattle.clap.specs.Walk.{rows_of};
ghost use Rattle.chi_check.specs.OptionValues.{Chooses, HasOptions, IsArgumentsFault, IsNamed, IsNamedFirst};
ghost use Rattle.chi_check.specs.CommandLine.{IsTaken, program_app};

use crate::option_values::{
    cover_options, explain_options, file_given, has_no_address, has_other_effect, has_other_format,
    lacks_flits, watch_options,
};
use crate::options::{CheckOptions, CoverOptions, WatchingOptions};
use crate::tasks::TASKS;
use chi_program::program_command;
use clap::error::ErrorKind;
use clap::{ArgMatches, Command, Error};
use std::alloc::{AllocError, Global};

/// What is done: a trace is explained, events are watched, or the operations of traces or of events are counted. The first two read
/// the file at a path, where one is named, and else the standard input.
#[derive(Drop)]
pub enum Task<'a> {
    Explain(CheckOptions<'a>, Option<&'a str>),
    Watch(WatchingOptions<'a>, Option<&'a str>),
    Cover(CoverOptions<'a>),
}

/// The program's name.
pub(crate) const PROGRAM: &str = "chicheck";

// What `--version` prints after the program's name.
const VERSION: &str = "0.1.0";

const ABOUT: &str = "Says whether what was observed at a CHI home node can be explained.";

const NEED_FLITS: &str = "the options '--points' and '--errors' need '--flits'";

const EFFECTS: &str = "the option '--errors' takes 'none' or 'unknown'";

const FORMATS: &str = "the option '--format' takes 'text' or 'json'";

const ADDRESSES: &str =
    "the option '--granule' takes an address, in decimal or after '0x' in hexadecimal digits";

const MORE: &str =
    "A trace in FILE or on standard input is a script of chihome whose requests have the members
start, end and reply too. It may have the member final, the words at the end. Where granules is
left out the memory is all addresses; where end is left out a request was still open, and where
reply is null its answer was not seen. The answer on standard output is `explained`,
`not explained` with where, or `undecided`.

  $ echo '{\"base\":4096,\"granules\":1,\"requests\":[{\"src\":0,\"txn\":1,\"op\":4,\"size\":3,
    \"addr\":4096,\"endian\":0,\"be\":0,\"lanes\":\"00000000000000000000000000000000\",
    \"start\":10,\"end\":20,\"reply\":\"00000000000000000000000000000000\"}]}' | chicheck explain
  explained

Events in FILE or on standard input are one JSON object a line: requests, their data and their
replies, as a monitor tells them. `watch` reads them as they come (docs/EVENTS.md). With `--flits`
the lines are the flits at a home's port (docs/FLITS.md), and with `--points` too each request is
told at the time of its point. A request that was answered by an error may have taken effect; with
`--errors none` it took none.

`cover` writes a table of how many operations each bin counted, of a trace or of events on standard
input, or of all the files that are named (docs/COVERAGE.md).

Statuses: 0 explained, or covered, and all that is required; 1 not explained, less than is
required, or a flit that is not legal at the port; 2 command line refused; 3 trace, event or flit
refused; 4 no memory; 5 a read or a write failed; 6 undecided.";

fn whole_command<'a>(alloc: Global) -> Result<Command<'a>, Error>
    ensures app { IfOk result (λ command. app_of command ≡ program_app) }
    ensures memory { IfErr result (λ error. kind_of error ≡ ErrorKind.OutOfMemory) }
{
    program_command(alloc, PROGRAM, VERSION, ABOUT, MORE, &TASKS)
}

// The task of this name, with its options.
fn chosen_task<'a>(
    alloc: Global,
    name: &str,
    matches: &ArgMatches<'a>,
) -> Result<Task<'a>, AllocError>
    ensures named { IfOk result (IsNamed name.now) }
    ensures options { IfOk result (HasOptions (rows_of (found_of matches.now))) }
{
    Ok(if name == "watch" {
        Task::Watch(watch_options(matches), file_given(matches))
    } else if name == "cover" {
        Task::Cover(cover_options(alloc, matches)?)
    } else {
        Task::Explain(explain_options(matches), file_given(matches))
    })
}

// An error of this kind, which says this.
fn refused(alloc: Global, kind: ErrorKind, text: &str) -> Result<Error, Error>
    ensures kind { IfOk result (λ error. kind_of error ≡ kind) }
    ensures memory { IfErr result (λ error. kind_of error ≡ ErrorKind.OutOfMemory) }
{
    let mut command = whole_command(alloc)?;
    Ok(command.error(kind, text)?)
}

/// Reads the arguments after the program's name: `explain`, `watch` or `cover`, and its options.
///
/// Which arguments are refused, and as what, and which task and options the others name, `clap`'s definitions say of the
/// program's command line; but `--points` and `--errors none` need `--flits`, `--errors` and `--format` take one of two words each,
/// and `--granule` takes an address. That `clap` refuses a budget or a time that is no number no contract says; `tests/cases/command_lines` shows it.
///
/// ```
/// let task = task_of(alloc, &arguments)?; // explain --witness --budget 1000 --until 4711
/// ```
pub fn task_of(alloc: Global, arguments: &[String]) -> Result<Task<'_>, Error>
    ensures chosen { IfOk result (λ task. Chooses (map string_bytes arguments.now) task) }
    ensures first { IfOk result (λ task. IsNamedFirst (map string_bytes arguments.now) task) }
    ensures taken { IfOk result (λ _. IsTaken (map string_bytes arguments.now)) }
    ensures refused { IfErr result (λ error. IsArgumentsFault (map string_bytes arguments.now) (kind_of error)) }
{
    let matches = whole_command(alloc)?.try_get_matches_from(arguments)?;
    let Some((name, matches)) = matches.subcommand() else {
        unreachable!()
    };
    if lacks_flits(matches) {
        return Err(refused(alloc, ErrorKind::MissingRequiredArgument, NEED_FLITS)?);
    }
    if has_other_effect(matches) {
        return Err(refused(alloc, ErrorKind::InvalidValue, EFFECTS)?);
    }
    if has_other_format(matches) {
        return Err(refused(alloc, ErrorKind::InvalidValue, FORMATS)?);
    }
    if has_no_address(matches) {
        return Err(refused(alloc, ErrorKind::InvalidValue, ADDRESSES)?);
    }
    Ok(chosen_task(alloc, name, matches)?)
}
