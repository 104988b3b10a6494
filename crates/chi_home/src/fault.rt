//! Why the program ends early, and with which status.

ghost use Rattle.chi_home.specs.ProgramStatus.{home_status};

use crate::generation::{GenerateFault, generate_status};
use chi_engine::{EngineFault, status_of};
use chi_program::ProgramFault;
use chi_script::WriteFault;
use thiserror::Error;

/// Why what was asked for was not done: the engine ended early, or no whole script was written.
#[derive(Debug, Drop, Error)]
pub enum HomeFault {
    #[error(transparent)]
    Engine(EngineFault),
    #[error(transparent)]
    Generate(GenerateFault),
}

impl ProgramFault for HomeFault {
    ghost status_of = { home_status };

    fn status(&self) -> u8 {
        match self {
            HomeFault::Engine(fault) => status_of(fault),
            HomeFault::Generate(fault) => generate_status(fault),
        }
    }

    fn no_memory() -> HomeFault {
        HomeFault::Engine(EngineFault::Memory)
    }

    fn unwritten() -> HomeFault {
        HomeFault::Engine(EngineFault::Write(WriteFault::Failed))
    }
}
