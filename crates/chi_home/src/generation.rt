//! The task `generate`: the options that it was given, and what it writes.

ghost use Rattle.std.specs.Prelude.{◌≡◌, codes, unwrap_or};
ghost use Rattle.clap.specs.Matches.{found_of};
ghost use Rattle.clap.specs.Walk.{first_of, rows_of};
ghost use Rattle.chi_home.specs.CommandLine.{default_mix};
ghost use Rattle.chi_home.specs.Generating.{HasGenerateOptions, WritesScript, are_in_range, asked_for, generate_status};

use chi_fields::{Region, RegionFault, region_fault_name};
use chi_program::{is_switched, number_or};
use chi_script::{WriteFault, write_bytes};
use chi_stimulus::{Mix, MixFault, Stimulus, generated_script};
use clap::ArgMatches;
use std::alloc::Global;
use std::io::Write;
use thiserror::Error;

/// What a script by chance is to be, as the command line says it.
#[derive(Clone, Copy)]
pub struct GenerateOptions<'a> {
    pub requests: u64,
    pub seed: u64,
    pub base: u64,
    pub granules: u64,
    pub image: bool,
    pub requesters: u64,
    pub refused: u64,
    pub hot: u64,
    pub mix: &'a str,
}

/// Why no script was written.
///
/// - `Number`: a number is greater than its option takes, or there are no requesters.
/// - `Region`: `Region::new` refuses the base and the number of granules.
/// - `Mix`: the weights are not read.
/// - `Memory`: a growth was refused.
/// - `Write`: the script was not written whole.
#[derive(Clone, Copy, Debug, Error)]
pub enum GenerateFault {
    #[error("a number is not one that its option takes")]
    Number,
    #[error("region is refused: {}", region_fault_name(*.0))]
    Region(RegionFault),
    #[error("{}", .0)]
    Mix(MixFault),
    #[error("no memory")]
    Memory,
    #[error("{}", .0)]
    Write(WriteFault),
}

/// The status that the program ends with for a fault.
pub(crate) fn generate_status(fault: &GenerateFault) -> u8
    ensures { result ≡ generate_status fault.now }
{
    match fault {
        GenerateFault::Number | GenerateFault::Region(_) | GenerateFault::Mix(_) => 2,
        GenerateFault::Memory => 4,
        GenerateFault::Write(_) => 5,
    }
}

/// The weights where none are given.
pub(crate) const MIX: &str = "read=1,write=1,store=2,load=3,swap=1,compare=1";

// The weights that were given, or those that stand in for them.
fn chosen_mix<'a>(chosen: &ArgMatches<'a>) -> &'a str
    ensures { result.now ≡ unwrap_or (first_of (codes "mix") (rows_of (found_of chosen.now))) default_mix }
{
    match chosen.get_str("mix") {
        Some(text) => text,
        None => MIX,
    }
}

/// The options that `generate` was given, or that stand in for them.
pub(crate) fn generate_options<'a>(chosen: &ArgMatches<'a>) -> GenerateOptions<'a>
    ensures { HasGenerateOptions (rows_of (found_of chosen.now)) result }
{
    GenerateOptions {
        requests: number_or(chosen, "requests", 1000),
        seed: number_or(chosen, "seed", 1),
        base: number_or(chosen, "base", 4096),
        granules: number_or(chosen, "granules", 8),
        image: is_switched(chosen, "image"),
        requesters: number_or(chosen, "requesters", 4),
        refused: number_or(chosen, "refused", 0),
        hot: number_or(chosen, "hot", 0),
        mix: chosen_mix(chosen),
    }
}

// Whether each number is one that its option takes.
fn are_in_range(options: &GenerateOptions<'_>) -> bool
    ensures { result ≡ are_in_range options.now }
{
    options.requests <= 4096
        && options.granules <= 65535
        && 1 <= options.requesters
        && options.requesters <= 8
        && options.refused <= 100
        && options.hot <= 100
}

// What the options ask for.
fn stimulus_of(options: &GenerateOptions<'_>) -> Result<Stimulus, GenerateFault>
    ensures { result ≡ asked_for options.now }
{
    if !are_in_range(options) {
        return Err(GenerateFault::Number);
    }
    let region = Region::new(options.base, options.granules as u16).map_err(GenerateFault::Region)?;
    let mix = Mix::named(options.mix).map_err(GenerateFault::Mix)?;
    Ok(Stimulus {
        requests: options.requests as u16,
        seed: options.seed,
        region,
        image: options.image,
        requesters: options.requesters as u8,
        refused: options.refused as u8,
        hot: options.hot as u8,
        mix,
    })
}

/// Writes the script that the options ask for.
#[tactic(auto, using(crate::proofs::Written::refused_keeps))]
pub(crate) fn generate<W: Write>(
    alloc: Global,
    options: &GenerateOptions<'_>,
    to: &mut W,
) -> Result<(), GenerateFault>
    ensures { WritesScript options.now (W.contents to.old) (W.contents to.new) result }
{
    let stimulus = match stimulus_of(options) {
        Ok(stimulus) => stimulus,
        Err(fault) => return Err(fault),
    };
    let Ok(text) = generated_script(alloc, &stimulus) else {
        return Err(GenerateFault::Memory);
    };
    write_bytes(to, text.as_str().as_bytes()).map_err(GenerateFault::Write)
}
