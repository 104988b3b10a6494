//! The words of granules that a trace tells: those of a region, or a list of granules anywhere.

ghost use Rattle.std.specs.Prelude.{◌≡◌, ◌≢◌, ◌≤◌, ◌^◌, ℕ, List, [], None, Some, Ok, Err, IfOk, IfErr};
ghost use Rattle.serde_json.specs.View.{items_view, view};
ghost use Rattle.chi_json.specs.Datum.{datum_data};
ghost use Rattle.chi_reading.specs.Told.{region_words, start_of, stated_list, told_from, told_of, word_of};
ghost use Rattle.chi_trace.specs.declared.words.GranuleWord.{GranuleWord};
ghost use Rattle.chi_trace.specs.Words.{find_word};

use crate::member::Member;
use chi_fields::ADDRESSES;
use chi_json::{Datum, MemberFault, hex_bytes};
use chi_trace::{GranuleWord, GranuleWords};
use serde_json::Value;
use std::alloc::{AllocError, Global};
use std::collections::BTreeMap;

/// The words of a region's granules, from the granule with this number on.
pub(crate) fn region_words(
    alloc: Global,
    first: u64,
    words: &[u64],
) -> Result<GranuleWords, AllocError>
    requires { first ≤ 2 ^ 61 }
    ensures { IfOk result (λ list. (g : ℕ) → find_word list g ≡ find_word (region_words first words.now) g) }
{
    let mut map = BTreeMap::new(alloc);
    let mut granule = first;
    for word in words {
        map.insert(granule, *word)?;
        granule += 1;
    }
    GranuleWords::of_map(alloc, &map)
}

/// An address at which a granule starts: a multiple of 8 below 2^52. `None` is answered where the value is none.
pub(crate) fn granule_start(value: &Datum<'_>) -> Option<u64>
    ensures { result ≡ start_of (datum_data value.now) }
{
    let addr = value.as_u64()?;
    if addr % 8 != 0 || addr >= ADDRESSES {
        return None;
    }
    Some(addr)
}

/// The word of a granule: a text of 16 hex digits, which are its eight bytes in address order. `None` is answered where the
/// value is none.
pub(crate) fn granule_word(value: &Datum<'_>) -> Option<u64>
    ensures { result ≡ word_of (datum_data value.now) }
{
    let bytes = hex_bytes(value)?;
    Some(u64::from_le_bytes(bytes))
}

/// The word of a granule that an object tells: its address, and its eight bytes in address order.
fn word_told(value: &Value) -> Option<GranuleWord>
    ensures { result ≡ told_of (view value.now) }
{
    let addr = granule_start(&Datum::Value(value.get("addr")?))?;
    let word = granule_word(&Datum::Value(value.get("bytes")?))?;
    Some(GranuleWord {
        granule: addr / 8,
        word,
    })
}

/// The words of a list of granules, each told once.
fn told_list(
    alloc: Global,
    list: &[Value],
    member: Member,
) -> Result<GranuleWords, MemberFault<Member>>
    ensures ok { IfOk result (λ words. (each : List GranuleWord) × (told_from [] (items_view list.now) ≡ Some each) × ((g : ℕ) → find_word words g ≡ find_word each g)) }
    ensures fault { IfErr result (λ f. f ≢ MemberFault.Memory → (f ≡ MemberFault.BadMember member) × (told_from [] (items_view list.now) ≡ None)) }
{
    let mut map = BTreeMap::new(alloc);
    for value in list {
        let Some(told) = word_told(value) else {
            return Err(MemberFault::BadMember(member));
        };
        match map.insert(told.granule, told.word) {
            Ok(None) => {}
            Ok(Some(_)) => return Err(MemberFault::BadMember(member)),
            Err(_) => return Err(MemberFault::Memory),
        }
    }
    GranuleWords::of_map(alloc, &map).map_err(|_| MemberFault::Memory)
}

/// The words of granules that a member of an object tells: none where the object has no such member.
#[tactic(auto, unfolding(crate::specs::Told::stated_list))]
pub(crate) fn stated_list(
    alloc: Global,
    object: &Value,
    member: Member,
) -> Result<GranuleWords, MemberFault<Member>>
    ensures ok { IfOk result (λ words. (each : List GranuleWord) × (stated_list member (view object.now) ≡ Ok each) × ((g : ℕ) → find_word words g ≡ find_word each g)) }
    ensures fault { IfErr result (λ f. f ≢ MemberFault.Memory → stated_list member (view object.now) ≡ Err f) }
{
    let Some(value) = object.get(member.name()) else {
        return Ok(GranuleWords::none(alloc));
    };
    match value.as_array() {
        Some(list) => told_list(alloc, list.as_slice(), member),
        None => Err(MemberFault::BadMember(member)),
    }
}
