//! The words of a region's granules, as a member of an object states them.

ghost use Rattle.std.specs.Prelude.{◌≡◌, ◌≢◌, ◌*◌, Some, None, Ok, Err, replicate, IfOk, IfErr, IfSome, IsErr, length};
ghost use Rattle.std.specs.Option.{option_map};
ghost use Rattle.hex.specs.Hex.{decode_sized};
ghost use Rattle.serde_json.specs.View.{view};
ghost use Rattle.chi_json.specs.Members.{opening_words, stated_words};
ghost use Rattle.chi_json.specs.Values.{image_of, words_of};

use crate::member::{MemberFault, Named};
use hex::FromHexError;
use serde_json::Value;
use std::alloc::{AllocError, Global};

// The words of some bytes, eight to a word.
fn words(alloc: Global, bytes: &[u8]) -> Result<Vec<u64>, AllocError>
    ensures { IfOk result (λ words. words.items ≡ words_of bytes.now) }
{
    let (chunks, _) = bytes.as_chunks::<8>();
    let mut words = Vec::with_capacity(alloc, chunks.len())?;
    for chunk in chunks {
        words.push(u64::from_le_bytes(*chunk))?;
    }
    Ok(words)
}

// The words of so many granules whose bytes are all 0.
fn zeros(alloc: Global, granules: u16) -> Result<Vec<u64>, AllocError>
    ensures { IfOk result (λ words. words.items ≡ replicate granules 0) }
{
    vec![in alloc; 0; usize::from(granules)]
}

// The bytes of so many granules, of a text of sixteen hex digits for each.
fn image_bytes<M: Named>(
    alloc: Global,
    text: &str,
    member: M,
    granules: u16,
) -> Result<Vec<u8>, MemberFault<M>>
    ensures ok { IfOk result (λ bytes. decode_sized text.now (8 * granules) ≡ Ok bytes.items) }
    ensures fault { IfErr result (λ f. f ≢ MemberFault.Memory → (f ≡ MemberFault.BadMember member) × IsErr (decode_sized text.now (8 * granules))) }
{
    if text.len() != 16 * usize::from(granules) {
        return Err(MemberFault::BadMember(member));
    }
    match hex::decode(alloc, text) {
        Ok(bytes) => Ok(bytes),
        Err(FromHexError::OutOfMemory) => Err(MemberFault::Memory),
        Err(_) => Err(MemberFault::BadMember(member)),
    }
}

// The words of so many granules that a member's value states.
fn image<M: Named>(
    alloc: Global,
    value: &Value,
    member: M,
    granules: u16,
) -> Result<Vec<u64>, MemberFault<M>>
    ensures ok { IfOk result (λ words. image_of granules (view value.now) ≡ Some words.items) }
    ensures fault { IfErr result (λ f. f ≢ MemberFault.Memory → (f ≡ MemberFault.BadMember member) × (image_of granules (view value.now) ≡ None)) }
{
    let Some(text) = value.as_str() else {
        return Err(MemberFault::BadMember(member));
    };
    let bytes = image_bytes(alloc, text, member, granules)?;
    words(alloc, bytes.as_slice()).map_err(|_| MemberFault::Memory)
}

/// The words of `granules` granules that a member of an object states, and `None` where the object has no such
/// member.
///
/// The member is a text of exactly 16 hex digits for each granule, in either case: the bytes of the granules in
/// address order. Byte `k` of a word is its bits `8k` to `8k + 7`. Any other value is `BadMember`, and `Memory` is
/// answered where a growth is refused.
///
/// ```
/// let words = stated_words(alloc, &object, Member::Final, region.granules())?;
/// ```
#[tactic(auto, unfolding(crate::specs::Members::stated_words))]
pub fn stated_words<M: Named>(
    alloc: Global,
    object: &Value,
    member: M,
    granules: u16,
) -> Result<Option<Vec<u64>>, MemberFault<M>>
    ensures ok { IfOk result (λ stated. stated_words M.name_of member granules (view object.now) ≡ Ok (option_map (λ words. words.items) stated)) }
    ensures fault { IfErr result (λ f. f ≢ MemberFault.Memory → stated_words M.name_of member granules (view object.now) ≡ Err f) }
    ensures sized { IfOk result (λ stated. IfSome stated (λ words. length words.items ≡ granules)) }
{
    match object.get(member.name()) {
        Some(value) => Ok(Some(image(alloc, value, member, granules)?)),
        None => Ok(None),
    }
}

/// The words of `granules` granules at the opening: those that a member of an object states, and zeros where the
/// object has no such member.
///
/// ```
/// let image = opening_words(alloc, &object, Member::Image, region.granules())?;
/// ```
#[tactic(auto, unfolding(crate::specs::Members::opening_words))]
pub fn opening_words<M: Named>(
    alloc: Global,
    object: &Value,
    member: M,
    granules: u16,
) -> Result<Vec<u64>, MemberFault<M>>
    ensures ok { IfOk result (λ words. opening_words M.name_of member granules (view object.now) ≡ Ok words.items) }
    ensures fault { IfErr result (λ f. f ≢ MemberFault.Memory → opening_words M.name_of member granules (view object.now) ≡ Err f) }
    ensures imaged { IfOk result (λ words. length words.items ≡ granules) }
{
    match stated_words(alloc, object, member, granules)? {
        Some(words) => Ok(words),
        None => zeros(alloc, granules).map_err(|_| MemberFault::Memory),
    }
}
