//! Laws of flits. Each function does nothing: its contract is the law, for proofs that call it.

ghost use Rattle.chi_flits.specs.Accepted.{EventsAmongOthersAreAccepted, EventsAreAccepted, IsFlit};

use crate::bounds::kind_fits;
use crate::flit::Flit;

/// The numbers of a flit fit their types.
pub fn flit_fits(flit: &Flit)
    ensures { IsFlit flit.now }
{
    let _time = flit.time;
    kind_fits(&flit.kind);
}

/// `Outstanding` accepts the events that the flits of a port tell, one after the other, or refuses one for the byte enables of an
/// atomic: none has another fault.
pub fn events_are_accepted()
    ensures { EventsAreAccepted }
{}

/// So it does where events that are about no request stand between them.
pub fn events_among_others_are_accepted()
    ensures { EventsAmongOthersAreAccepted }
{}
