//! Why a program ends early, and with which status.

ghost use Rattle.std.specs.Prelude.{◌≡◌, ◌⊎◌};
ghost use Rattle.std.specs.Io.KnownBytes.{Keeps};

use std::fmt::Display;
use std::io::Write;

/// Why a program ends early. Its text is the line that says why.
pub trait ProgramFault: Display {
    ghost use Rattle.std.specs.Prelude.{ℕ};

    /// The status of a fault.
    ghost status_of: { Self → ℕ };

    /// The status that the program ends with on this fault.
    fn status(&self) -> u8
        ensures { result ≡ status_of self.now };

    /// There is no memory.
    fn no_memory() -> Self
        ensures { status_of result ≡ 4 };

    /// The output could not be written.
    fn unwritten() -> Self
        ensures { status_of result ≡ 5 };
}

/// Reports why the program of this name ends early: a line of the name and the fault. The status is that of the fault.
///
/// ```
/// let status = report_fault("chihome", &fault, &mut errors); // chihome: no memory
/// ```
pub fn report_fault<F: ProgramFault, E: Write>(program: &str, fault: &F, errors: &mut E) -> u8
    ensures { result ≡ F.status_of fault.now }
{
    let _written = writeln!(errors, "{program}: {fault}");
    fault.status()
}

/// Flushes what was written. The answer is this status, or, where it cannot be flushed, that of the fault, which is reported.
///
/// ```
/// let status = flushed_status::<EngineFault, _, _>("chihome", 0, &mut to, &mut errors);
/// ```
pub fn flushed_status<F: ProgramFault + Drop, W: Write, E: Write>(
    program: &str,
    status: u8,
    to: &mut W,
    errors: &mut E,
) -> u8
    ensures status { (result ≡ status) ⊎ (result ≡ 5) }
    ensures kept { Keeps (W.contents to.old) (W.contents to.new) }
{
    match to.flush() {
        Ok(()) => status,
        Err(_) => report_fault(program, &F::unwritten(), errors),
    }
}
