//! Why a request is refused.

ghost use Rattle.std.specs.Prelude.{◌≡◌};
ghost use Rattle.chi_fields.specs.Refusal.{name_of};

use thiserror::Error;

/// Why a request is refused: the first of these that it meets, in this order.
///
/// Source: Arm IHI 0050 Issue B, sizes and operand placement; the names and their order are of the profile.
#[derive(Clone, Copy, Debug, PartialEq, Eq, Error)]
pub enum Refusal {
    #[error("the opcode names no request")]
    UnknownOpcode,
    #[error("the size is reserved")]
    ReservedSize,
    #[error("the size is outside the profile")]
    SizeOutOfProfile,
    #[error("the address is not a multiple of the operand's length")]
    Misaligned,
    #[error("the operand is not in the region")]
    OutOfRegion,
    #[error("a byte enable is outside the window, or an atomic's is missing")]
    BadByteEnable,
}

impl Refusal {
    /// All refusals, in the order in which a home meets them.
    pub const ALL: [Refusal; 6] = [
        Refusal::UnknownOpcode,
        Refusal::ReservedSize,
        Refusal::SizeOutOfProfile,
        Refusal::Misaligned,
        Refusal::OutOfRegion,
        Refusal::BadByteEnable,
    ];
}

/// The refusal's name, as `Misaligned`.
pub fn refusal_name(refusal: Refusal) -> &'static str
    ensures { result.now ≡ name_of refusal }
{
    match refusal {
        Refusal::UnknownOpcode => "UnknownOpcode",
        Refusal::ReservedSize => "ReservedSize",
        Refusal::SizeOutOfProfile => "SizeOutOfProfile",
        Refusal::Misaligned => "Misaligned",
        Refusal::OutOfRegion => "OutOfRegion",
        Refusal::BadByteEnable => "BadByteEnable",
    }
}
