//! How many bytes a value of a type takes, as a bound.

/// How many bytes a value of the type takes. Every type has it.
pub trait TypeSize {
    ghost use Rattle.std.specs.Prelude.{◌≡◌, ℕ};
    ghost use Rattle.std.specs.Mem.{type_size};

    ghost bytes: { ℕ };

    ghost bytes_are: { bytes ≡ type_size Self.row };
}

impl<T> TypeSize for T {
    ghost use Rattle.std.specs.Prelude.{refl};
    ghost use Rattle.std.specs.Mem.{type_size};

    ghost bytes = { type_size T.row };

    ghost bytes_are = { refl };
}
