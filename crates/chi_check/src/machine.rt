//! The machine that the program runs on: its files, its clock, and its memory.

ghost use Rattle.std.specs.Prelude.{⊤};

use crate::check::MOST_BYTES;
use crate::meter::{Meter, Used};
use crate::pages::Pages;
use crate::sources::Sources;
use chi_json::{InputFault, read_input};
use std::alloc::Global;
use std::fs;
use std::rt::Files;
use std::time::{Clock, Instant};

/// The machine. What a file holds no contract says, nor what the clock tells.
#[derive(Drop)]
pub struct Machine<'a, T> {
    rt: &'a T,
}

impl<'a, T: Files> Machine<'a, T> {
    /// This machine.
    ///
    /// ```
    /// let mut machine = Machine::new(&rt);
    /// ```
    pub fn new(rt: &'a T) -> Machine<'a, T> {
        Machine { rt }
    }
}

// The number of kibibytes in a line like `VmHWM:     1234 kB`.
fn kibibytes_in(line: &str) -> Option<u64> {
    line.split_whitespace().nth(1)?.parse::<u64>().ok()
}

// The most bytes of memory that the program had at one time, by what Linux tells of a process.
fn most_bytes<T: Files + AllocGlobal>(rt: &T) -> Option<u64> {
    let status = fs::read_to_string(rt, "/proc/self/status").ok()?;
    let line = status.lines().find(|line| line.starts_with("VmHWM:"))?;
    kibibytes_in(line)?.checked_mul(1024)
}

impl<'a, T: Clock + Files + AllocGlobal> Meter for Machine<'a, T> {
    fn used(&self) -> Used {
        Used {
            time: Instant::now(self.rt).ok(),
            bytes: most_bytes(self.rt),
        }
    }
}

impl<'a, T: Files> Pages for Machine<'a, T> {
    ghost has_put = { λ p path page. ⊤ };

    fn put(&mut self, path: &str, page: &[u8]) -> bool {
        fs::write(self.rt, path, page).is_ok()
    }
}

impl<'a, T: Files> Sources for Machine<'a, T> {
    ghost use Rattle.std.specs.Prelude.{None};

    type File = T::File;

    ghost holds = { λ s path input. ⊤ };

    ghost given = { λ s path. None };

    fn open_file(&self, path: &str) -> Option<T::File> {
        fs::File::open(self.rt, path).ok()
    }

    fn read_file(&self, alloc: Global, path: &str) -> Result<Vec<u8>, InputFault> {
        match fs::File::open(self.rt, path) {
            Ok(mut file) => read_input(alloc, &mut file, MOST_BYTES),
            Err(_) => Err(InputFault::Read),
        }
    }
}
