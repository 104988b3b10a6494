//! Texts of hex digits as simulators print them, some of which are not known.

ghost use Rattle.std.specs.Prelude.{◌≡◌, ◌≤◌, ◌<◌, ◌+◌, ◌*◌, ◌^◌, ◌||◌, length};
ghost use Rattle.std.specs.Char.{is_digit};
ghost use Rattle.chi_flit_text.specs.Digits.{bits_of, group, is_text, is_unknown, known_bits, unknown_bits, value_of};

/// Bits of a text of digits, four for each digit: those that are 1, and those that are not known. A bit that is not known is 0
/// in `known`.
#[derive(Clone, Copy)]
pub(crate) struct Bits {
    pub known: u64,
    pub unknown: u64,
}

impl Bits {
    /// The number of which these are the bits. `None` is answered where one is not known.
    pub(crate) fn value(self) -> Option<u64>
        ensures { result ≡ value_of self }
    {
        if self.unknown == 0 {
            Some(self.known)
        } else {
            None
        }
    }
}

/// Whether this is a digit, of hex or x or z.
fn is_digit(code: u8) -> bool
    ensures { result ≡ (is_digit code 16 || is_unknown code) }
{
    char::from(code).is_digit(16) || matches!(code, b'x' | b'X' | b'z' | b'Z')
}

/// Whether all of these are digits.
pub(crate) fn is_text(text: &[u8]) -> bool
    ensures { result ≡ is_text text.now }
{
    text.iter().all(|code| is_digit(*code))
}

/// The bits of a digit that are 1.
fn known_bits(code: u8) -> u64
    ensures value { result ≡ known_bits code }
    ensures small { result < 16 }
{
    match char::from(code).to_digit(16) {
        Some(digit) => u64::from(digit),
        None => 0,
    }
}

/// The bits of a digit that are not known.
fn unknown_bits(code: u8) -> u64
    ensures value { result ≡ unknown_bits code }
    ensures small { result < 16 }
{
    if char::from(code).is_digit(16) { 0 } else { 15 }
}

/// The bits of a text of at most 16 digits.
pub(crate) fn bits_of(text: &[u8]) -> Bits
    requires { length text.now ≤ 16 }
    ensures value { result ≡ bits_of text.now }
    ensures known_fits { result.known < 16 ^ length text.now }
    ensures unknown_fits { result.unknown < 16 ^ length text.now }
{
    let mut known = 0;
    let mut unknown = 0;
    for code in text {
        known = known * 16 + known_bits(*code);
        unknown = unknown * 16 + unknown_bits(*code);
    }
    Bits { known, unknown }
}

/// The group at a place, of groups of so many digits: that at place 0 is the last.
#[tactic(auto, unfolding(crate::specs::Digits::group))]
pub(crate) fn group(text: &[u8], width: usize, place: usize) -> &[u8]
    requires narrow { width ≤ 4 }
    requires few { place < 64 }
    requires there { width * (place + 1) ≤ length text.now }
    ensures value { result.now ≡ group width place text.now }
    ensures sized { length result.now ≡ width }
{
    let start = text.len() - width * (place + 1);
    &text[start..start + width]
}
