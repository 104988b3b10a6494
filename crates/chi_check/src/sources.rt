//! Where inputs are read from by their paths.

ghost use Rattle.std.specs.Prelude.{◌≡◌, ◌≤◌, length, Some, IfOk, IfSome};
ghost use Rattle.chi_check.specs.Check.{most_bytes};

use chi_json::InputFault;
use std::alloc::Global;
use std::io::Read;

/// What reads files, whole or as they grow.
pub trait Sources {
    ghost use Rattle.std.specs.Prelude.{ℕ, List, Option};

    type File: Read + Drop;

    /// The file at this path holds this.
    ghost holds: { Self → List ℕ → List ℕ → Type 0 };

    /// What the file at this path gives to its reader, where that is known.
    ghost given: { Self → List ℕ → Option (List ℕ) };

    /// Opens the file at a path, or the named pipe, to be read to its end.
    fn open_file(&self, path: &str) -> Option<Self::File>
        ensures { IfSome result (λ file. IfSome (given self.now path.now) (λ input. Self.File.Read.remaining file ≡ Some input)) };

    /// Reads what the file at a path holds, of at most 536,870,912 bytes.
    fn read_file(&self, alloc: Global, path: &str) -> Result<Vec<u8>, InputFault>
        ensures held { IfOk result (λ input. holds self.now path.now input.items) }
        ensures within { IfOk result (λ input. length input.items ≤ most_bytes) };
}
