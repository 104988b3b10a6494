//! A script by chance.

ghost use Rattle.std.specs.Prelude.{◌≡◌, ◌*◌, ◌≤◌, ◌<◌, Ok, IfOk, All, length, string_bytes};
ghost use Rattle.chi_script.specs.Script.{ScriptValue, script};
ghost use Rattle.chi_stimulus.specs.Generated.{AreDecided, IsGenerated, count_of, requesters_of};
ghost use Rattle.chi_stimulus.specs.Object.{IsSmall};
ghost use Rattle.chi_stimulus.specs.Plan.{refusal_at, refusal_of};

use crate::chance::happens;
use crate::operation::Walks;
use crate::plan::{decided, refusal_at, spoilt};
use crate::request::{Sender, drawn};
use crate::stimulus::Stimulus;
use crate::text::script_text;
use chi_fields::{Region, Request, decode};
use chi_lanes::apply;
use rand::RngExt;
use rand_core::{Rng, SeedableRng};
use rand_xoshiro::Xoshiro256PlusPlus;
use std::alloc::{AllocError, Global};

/// The bytes of a region, by chance.
fn any_bytes<R: Rng>(rng: &mut R, alloc: Global, region: &Region) -> Result<Vec<u8>, AllocError>
    ensures { IfOk result (λ bytes. length bytes.items ≡ 8 * region.now.granules) }
{
    let mut bytes = vec![in alloc; 0; 8 * usize::from(region.granules())]?;
    rng.fill_bytes(&mut bytes);
    Ok(bytes)
}

/// The words of some bytes, eight to a word.
fn words_of(alloc: Global, bytes: &[u8]) -> Result<Vec<u64>, AllocError> {
    let (chunks, _) = bytes.as_chunks::<8>();
    let mut words = Vec::with_capacity(alloc, chunks.len())?;
    'chunks: for chunk in chunks {
        words.push(u64::from_le_bytes(*chunk))?;
    }
    Ok(words)
}

/// A granule: the first one in so many of a hundred draws, and else any.
fn granule<R: Rng>(rng: &mut R, stimulus: &Stimulus) -> u16
    ensures { result < stimulus.now.region.granules }
{
    let granules = stimulus.region.granules();
    if happens(rng, stimulus.hot) {
        0
    } else {
        rng.random_range(0..granules)
    }
}

/// A requester.
fn requester<R: Rng>(rng: &mut R, stimulus: &Stimulus) -> u8
    ensures { result < requesters_of stimulus.now }
{
    rng.random_range(0..stimulus.requesters.clamp(1, 8))
}

/// Executes a request on the words of a region, where a home accepts it.
fn execute(request: &Request, region: &Region, words: &mut [u64]) {
    let Ok(access) = decode(request, region) else {
        return;
    };
    if let Some(word) = words.get_mut(access.granule(region)) {
        *word = apply(*word, &access).0;
    }
}

/// The request at a place, on a memory of these words, which it changes.
fn next_request<R: Rng>(
    rng: &mut R,
    stimulus: &Stimulus,
    walks: &mut Walks,
    words: &mut [u64],
    place: u16,
) -> Request
    ensures decided { refusal_of stimulus.now.region result ≡ refusal_at stimulus.now.refused place }
    ensures source { result.src < requesters_of stimulus.now }
    ensures small { IsSmall result }
{
    let region = &stimulus.region;
    let granule = granule(rng, stimulus);
    let kind = stimulus.mix.draw(rng);
    let operation = walks.next(rng, kind, granule);
    let sender = Sender {
        src: requester(rng, stimulus),
        txn: (place % 256) as u8,
        addr: region.base() + 8 * u64::from(granule) + u64::from(operation.offset),
    };
    let word = words.get(usize::from(granule)).copied().unwrap_or(0);
    let request = drawn(rng, sender, operation, word);
    let refusal = refusal_at(stimulus.refused, place);
    let request = match refusal {
        Some(refusal) => spoilt(rng, request, region, refusal),
        None => request,
    };
    let request = decided(request, region, refusal);
    execute(&request, region, words);
    request
}

/// The requests, on a memory of these words.
fn requests<R: Rng>(
    rng: &mut R,
    alloc: Global,
    stimulus: &Stimulus,
    words: &mut [u64],
) -> Result<Vec<Request>, AllocError>
    ensures count { IfOk result (λ requests. length requests.items ≡ count_of stimulus.now) }
    ensures decided { IfOk result (λ requests. AreDecided stimulus.now.region stimulus.now.refused requests.items) }
    ensures sources { IfOk result (λ requests. All (λ q. q.src < requesters_of stimulus.now) requests.items) }
    ensures small { IfOk result (λ requests. All IsSmall requests.items) }
{
    let count = stimulus.requests.min(4096);
    let mut walks = Walks::new();
    let mut requests = Vec::with_capacity(alloc, usize::from(count))?;
    'places: for place in 0..count {
        let request = next_request(rng, stimulus, &mut walks, words, place);
        requests.push(request)?;
    }
    Ok(requests)
}

/// The text of a script by chance: JSON on one line, which `read_script` reads.
///
/// Of each kind the requests walk over its operations, which are each opcode, byte order, size and place in the granules of even
/// numbers and of odd ones: each is met before the walk begins again. Many values are at an edge of signed or unsigned order or
/// of carry. Where the requests are executed in the script's order an AtomicCompare finds its compare value about as often as
/// not.
///
/// ```
/// let text = generated_script(alloc, &stimulus)?;
/// let script = read_script(alloc, text.as_bytes(), 7)?;
/// ```
pub fn generated_script(alloc: Global, stimulus: &Stimulus) -> Result<String, AllocError>
    ensures { IfOk result (λ text. (s : ScriptValue) × (script (string_bytes text) 7 ≡ Ok s) × IsGenerated stimulus.now s) }
{
    let mut rng = Xoshiro256PlusPlus::seed_from_u64(stimulus.seed);
    if stimulus.image {
        let bytes = any_bytes(&mut rng, alloc, &stimulus.region)?;
        let mut words = words_of(alloc, &bytes)?;
        let requests = requests(&mut rng, alloc, stimulus, &mut words)?;
        script_text(alloc, &stimulus.region, Some(&bytes), &requests)
    } else {
        let mut words = vec![in alloc; 0; usize::from(stimulus.region.granules())]?;
        let requests = requests(&mut rng, alloc, stimulus, &mut words)?;
        script_text(alloc, &stimulus.region, None, &requests)
    }
}
