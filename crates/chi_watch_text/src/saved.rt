//! Of events that stand line by line, the lines that tell of one granule.

ghost use Rattle.std.specs.Prelude.{◌≡◌, ◌++◌, ℕ, List, IfErr, IfOk, OnOk};
ghost use Rattle.std.specs.BTreeSet.{contains};
ghost use Rattle.std.specs.Ordering.{nat_cmp};
ghost use Rattle.chi_events.specs.declared.event.EventKind.{EventKind};
ghost use Rattle.chi_watch.specs.WordsTold.{covers};
ghost use Rattle.chi_watch_text.specs.Saved.{IsSaved, IsSavingFault, line_about, numbers_after, tells_of};

use crate::fault::LinesFault;
use crate::line_told::event_told;
use crate::lines::next_line;
use chi_events::EventKind;
use chi_json::Scratch;
use std::alloc::{AllocError, Global};
use std::collections::BTreeSet;

/// Whether some of so many bytes from an address on lie in a granule.
fn is_covered(granule: u64, addr: u64, length: u64) -> bool
    ensures { result ≡ covers granule (EventKind.Unknown addr length) }
{
    let begin = u128::from(granule) * 8;
    let end = u128::from(addr) + u128::from(length);
    u128::from(addr) < begin + 8 && begin < end
}

/// Whether an event tells of a granule, where these numbers are those of its requests.
fn tells_of(granule: u64, numbers: &BTreeSet<u64>, kind: &EventKind) -> bool
    ensures { result ≡ tells_of granule (contains nat_cmp numbers.now) kind.now }
{
    match kind {
        EventKind::Request(request) => request.fields.addr / 8 == granule,
        EventKind::Data(packet) => numbers.contains(&packet.id),
        EventKind::Reply(completion) => numbers.contains(&completion.id),
        EventKind::Dropped { id } | EventKind::Refused { id, reason: _ } => numbers.contains(id),
        EventKind::Word(told) | EventKind::Final(told) => told.granule == granule,
        EventKind::Unknown { addr, length } => is_covered(granule, *addr, *length),
        EventKind::End => true,
    }
}

/// Notes the number of a request of a granule, and that it is none where a request elsewhere has it now.
fn note_number(
    granule: u64,
    numbers: &mut BTreeSet<u64>,
    kind: &EventKind,
) -> Result<(), AllocError>
    ensures { OnOk result ((id : ℕ) → contains nat_cmp numbers.new id ≡ numbers_after granule (contains nat_cmp numbers.old) kind.now id) }
{
    let EventKind::Request(request) = kind else {
        return Ok(());
    };
    if request.fields.addr / 8 == granule {
        numbers.insert(request.id)?;
    } else {
        numbers.remove(&request.id);
    }
    Ok(())
}

/// Adds a line, where its event tells of a granule.
fn add_line(
    saved: &mut Vec<u8>,
    granule: u64,
    numbers: &BTreeSet<u64>,
    line: &[u8],
    kind: &EventKind,
) -> Result<(), AllocError>
    ensures { OnOk result (saved.new.items ≡ saved.old.items ++ line_about granule (contains nat_cmp numbers.now) line.now kind.now) }
{
    if tells_of(granule, numbers, kind) {
        saved.extend_from_slice(line)?;
    }
    Ok(())
}

/// Of a text whose lines tell an event each, the lines that tell of a granule, as they stand there and in their order: its requests,
/// what is told of each, its words, that something which is not told may have written there, and the end. What is told by a number
/// is of the last request that had it.
///
/// A line that tells no event is a fault. The last line needs no line feed.
///
/// ```
/// let lines = lines_of_granule(alloc, &text, 513)?;
/// ```
pub fn lines_of_granule(alloc: Global, text: &[u8], granule: u64) -> Result<Vec<u8>, LinesFault>
    ensures saved { IfOk result (λ saved. IsSaved text.now granule saved.items) }
    ensures fault { IfErr result (IsSavingFault text.now) }
{
    let mut saved = Vec::new(alloc);
    let mut numbers = BTreeSet::new(alloc);
    let mut line = Vec::new(alloc);
    let mut scratch = Scratch::new(alloc);
    let mut from = text;
    for number in 1..u64::MAX {
        if from.is_empty() {
            return Ok(saved);
        }
        next_line(&mut from, &mut line)?;
        let event = event_told(alloc, &mut scratch, &line, number)?;
        add_line(&mut saved, granule, &numbers, &line, &event.kind)?;
        note_number(granule, &mut numbers, &event.kind)?;
    }
    Err(LinesFault::TooManyLines)
}
