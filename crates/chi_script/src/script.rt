//! Scripts and how one is read.

ghost use Rattle.std.specs.Prelude.{◌≡◌, ◌≢◌, ◌+◌, length, IfOk, IfErr, Ok, Err};
ghost use Rattle.serde_json.specs.View.{view};
ghost use Rattle.chi_history.specs.NumberSets.{AllFrom, below};
ghost use Rattle.chi_script.specs.Script.{object_script, script};

use crate::fault::{MOST_REQUESTS, ScriptFault};
use crate::member::Member;
use crate::requests::requests;
use chi_fields::{Region, Request};
use chi_json::{json, number, opening_words, stated};
use serde_json::Value;
use std::alloc::Global;
use std::marker::Model;

/// A region, its memory at the opening, and at most 4,096 requests to the home that serves it. Only `read_script`
/// makes one.
#[derive(Debug, Drop)]
pub struct Script {
    region: Region,
    image: Vec<u64>,
    requests: Vec<Request>,
}

impl Model for Script {
    ghost use Rattle.std.specs.Prelude.{◌≡◌, length};
    ghost use Rattle.chi_script.specs.Script.{ScriptValue};

    ghost Value = { ScriptValue };

    ghost view = { λ s. record { region = s.region; image = s.image.items; requests = s.requests.items } };

    // The image has a word for each granule of the region.
    ghost invariant = { λ s. length s.image.items ≡ s.region.granules };
}

impl Script {
    /// The region, which a home is opened on.
    ///
    /// ```
    /// let base = script.region().base(); // 4096
    /// ```
    pub fn region(&self) -> Region
        ensures { result ≡ self.now.region }
    {
        self.region
    }

    /// The words of the region's granules at the opening, as many as there are granules. Byte `k` of a word is its
    /// bits `8k` to `8k + 7`.
    ///
    /// ```
    /// let (home, seat) = BookStore::open(alloc, script.region(), 8, 4, script.image())?;
    /// ```
    pub fn image(&self) -> &[u64]
        ensures words { result.now ≡ self.now.image }
        ensures imaged { length self.now.image ≡ self.now.region.granules }
    {
        self.image.as_slice()
    }

    /// The requests in the script's order, at most 4,096.
    ///
    /// ```
    /// for request in script.requests() { .. }
    /// ```
    pub fn requests(&self) -> &[Request]
        ensures { result.now ≡ self.now.requests }
    {
        self.requests.as_slice()
    }
}

// The script that an object is.
#[tactic(auto, unfolding(crate::specs::Script::object_script))]
fn object_script(alloc: Global, object: &Value, top: u8) -> Result<Script, ScriptFault>
    ensures ok { IfOk result (λ s. object_script top (view object.now) ≡ Ok s) }
    ensures fault { IfErr result (λ f. f ≢ ScriptFault.Memory → object_script top (view object.now) ≡ Err f) }
{
    let base = number(object, Member::Base, u64::MAX)?;
    let granules = number(object, Member::Granules, 65535)? as u16;
    let image = opening_words(alloc, object, Member::Image, granules)?;
    let Some(list) = stated(object, Member::Requests)?.as_array() else {
        return Err(ScriptFault::BadMember(Member::Requests));
    };
    let requests = requests(alloc, list.as_slice(), top)?;
    if requests.len() > MOST_REQUESTS {
        return Err(ScriptFault::TooManyRequests);
    }
    match Region::new(base, granules) {
        Ok(region) => Ok(Script {
            region,
            image,
            requests,
        }),
        Err(fault) => Err(ScriptFault::RegionRefused(fault)),
    }
}

/// The script that a text is, for requesters up to `top`, or its first fault.
///
/// The text is one JSON object in UTF-8. Its members are `base`, a whole number below 2^64, `granules`, one below
/// 65536, `image`, a text of exactly 16 hex digits for each granule, and `requests`, an array of objects. The image
/// is the bytes of the region at the opening, in address order; it may be left out, and they are then 0. Each request
/// has `src`, 0 to `top`; `txn` and `op`, 0 to 255; `size`, 0 to 7; `addr`, below 2^64; `endian`, 0 or 1; `be`, below
/// 65536; and `lanes`, a text of 32 hex digits, lane 0 first. Further members are ignored.
///
/// `Memory` is answered where a growth is refused before a fault is met.
///
/// ```
/// let script = read_script(alloc, b"{\"base\":4096,\"granules\":8,\"requests\":[]}", 7)?;
/// ```
#[tactic(auto, unfolding(crate::specs::Script::script), using(crate::proofs::RequesterBounds::object_from))]
pub fn read_script(alloc: Global, text: &[u8], top: u8) -> Result<Script, ScriptFault>
    ensures ok { IfOk result (λ s. script text.now top ≡ Ok s) }
    ensures fault { IfErr result (λ f. f ≢ ScriptFault.Memory → script text.now top ≡ Err f) }
    ensures from { IfOk result (λ s. AllFrom (below (top + 1)) s.requests) }
{
    let Some(value) = json(alloc, text)? else {
        return Err(ScriptFault::NotJson);
    };
    if value.is_object() {
        object_script(alloc, &value, top)
    } else {
        Err(ScriptFault::NotObject)
    }
}
