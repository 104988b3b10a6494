//! Laws of numbers and their bytes. Each function does nothing: its contract is the law, for proofs that call it.

ghost use Rattle.chi_lanes.specs.ByteLaws.{BytesSpellNumber, NumberHasBytes};

/// The bytes of a number that fits are so many bytes, and spell it in the same byte order.
pub fn bytes_spell_number()
    ensures { BytesSpellNumber }
{}

/// The number that bytes spell fits them, and no other bytes of that length spell it in the same byte order.
pub fn number_has_bytes()
    ensures { NumberHasBytes }
{}
