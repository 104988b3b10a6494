//! Why a home refused a request, as a trace tells it.

ghost use Rattle.std.specs.Prelude.{◌≡◌};
ghost use Rattle.chi_json.specs.Datum.{datum_data};
ghost use Rattle.chi_reading.specs.Refused.{is_refused_so, refusal_of, refusal_with};
ghost use Rattle.chi_trace.specs.RequestFields.{access_of};
ghost use Rattle.chi_reading.specs.Requests.{refused_of};

use crate::fault::RequestFault;
use crate::stated::Stated;
use chi_fields::{Refusal, Region, refusal_name};
use chi_json::Datum;
use chi_trace::{RequestFields, access};

/// The first of some reasons that has this name.
fn with_name(name: &str, refusals: &[Refusal]) -> Option<Refusal>
    ensures { result ≡ refusal_with name.now refusals.now }
{
    refusals
        .iter()
        .copied()
        .find(|refusal| refusal_name(*refusal) == name)
}

/// Why a home refused a request: the reason of a name, as `Misaligned`. `None` is answered where the value is none of the six
/// names.
pub(crate) fn refusal_named(value: &Datum<'_>) -> Option<Refusal>
    ensures { result ≡ refusal_of (datum_data value.now) }
{
    let name = value.as_str()?;
    with_name(name, &Refusal::ALL)
}

/// Whether a home, of a region or of all addresses, refuses the request for this reason.
fn is_refused_so(fields: &RequestFields, region: &Option<Region>, reason: Refusal) -> bool
    ensures { result ≡ is_refused_so reason (access_of region.now fields.now) }
{
    match access(fields, region) {
        Ok(_) => false,
        Err(refusal) => refusal_name(refusal) == refusal_name(reason),
    }
}

/// Why a request was refused, where the home refuses it for this reason.
#[tactic(auto, unfolding(crate::specs::Requests::refused_of))]
pub(crate) fn refused(
    region: &Option<Region>,
    stated: &Stated,
    reason: Refusal,
) -> Result<Refusal, RequestFault>
    ensures { result ≡ refused_of region.now stated.now reason }
{
    if !is_refused_so(&stated.fields, region, reason) {
        return Err(RequestFault::NotRefusedSo);
    }
    if stated.end < stated.start {
        return Err(RequestFault::EndsBeforeStart);
    }
    Ok(reason)
}
