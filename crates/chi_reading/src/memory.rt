//! What the text of a trace says of the memory: a region or all addresses, and the words of granules.

ghost use Rattle.std.specs.Prelude.{◌≡◌, ◌≢◌, IfErr, IfOk, Ok, Err};
ghost use Rattle.serde_json.specs.View.{view};
ghost use Rattle.chi_json.specs.Members.{or_else};
ghost use Rattle.chi_reading.specs.Faults.{of_trace};
ghost use Rattle.chi_reading.specs.TraceText.{IsMemoryOf, MemoryText, memory_text, region_memory, wide_memory};

use crate::fault::TraceFault;
use crate::member::Member;
use crate::told::{region_words, stated_list};
use chi_fields::Region;
use chi_json::{MemberFault, number, opening_words, stated_words};
use chi_trace::GranuleWords;
use serde_json::Value;
use std::alloc::Global;

/// What a text says of the memory.
#[derive(Drop)]
pub(crate) struct Memory {
    pub region: Option<Region>,
    pub opening: GranuleWords,
    pub final_words: GranuleWords,
}

/// What a member of a trace tells: its fault is the trace's.
pub(crate) fn in_trace<T>(
    object: &Value,
    told: Result<T, MemberFault<Member>>,
) -> Result<T, TraceFault>
    ensures { result ≡ or_else (of_trace (view object.now)) told }
{
    match told {
        Ok(value) => Ok(value),
        Err(fault) => Err(TraceFault::of_member(object, fault)),
    }
}

/// The memory of a region.
#[tactic(auto, unfolding(crate::specs::TraceText::region_memory))]
fn region_memory(alloc: Global, object: &Value) -> Result<Memory, TraceFault>
    ensures ok { IfOk result (λ m. (t : MemoryText) × (region_memory (view object.now) ≡ Ok t) × IsMemoryOf t m) }
    ensures fault { IfErr result (λ f. f ≢ TraceFault.Memory → region_memory (view object.now) ≡ Err f) }
{
    let base = in_trace(object, number(object, Member::Base, u64::MAX))?;
    let granules = in_trace(object, number(object, Member::Granules, 65535))? as u16;
    let region = match Region::new(base, granules) {
        Ok(region) => region,
        Err(fault) => return Err(TraceFault::RegionRefused(fault)),
    };
    let image = in_trace(
        object,
        opening_words(alloc, object, Member::Image, granules),
    )?;
    let final_words = in_trace(object, stated_words(alloc, object, Member::Final, granules))?;
    let opening = region_words(alloc, base / 8, &image)?;
    let final_words = match final_words {
        Some(words) => region_words(alloc, base / 8, &words)?,
        None => GranuleWords::none(alloc),
    };
    Ok(Memory {
        region: Some(region),
        opening,
        final_words,
    })
}

/// The memory of all addresses.
#[tactic(auto, unfolding(crate::specs::TraceText::wide_memory))]
fn wide_memory(alloc: Global, object: &Value) -> Result<Memory, TraceFault>
    ensures ok { IfOk result (λ m. (t : MemoryText) × (wide_memory (view object.now) ≡ Ok t) × IsMemoryOf t m) }
    ensures fault { IfErr result (λ f. f ≢ TraceFault.Memory → wide_memory (view object.now) ≡ Err f) }
{
    let opening = in_trace(object, stated_list(alloc, object, Member::Image))?;
    let final_words = in_trace(object, stated_list(alloc, object, Member::Final))?;
    Ok(Memory {
        region: None,
        opening,
        final_words,
    })
}

/// The memory of a trace: a region where its number of granules is told, and else all addresses.
pub(crate) fn memory_told(alloc: Global, object: &Value) -> Result<Memory, TraceFault>
    ensures ok { IfOk result (λ m. (t : MemoryText) × (memory_text (view object.now) ≡ Ok t) × IsMemoryOf t m) }
    ensures fault { IfErr result (λ f. f ≢ TraceFault.Memory → memory_text (view object.now) ≡ Err f) }
{
    if object.get(Member::Granules.name()).is_some() {
        region_memory(alloc, object)
    } else {
        wide_memory(alloc, object)
    }
}
