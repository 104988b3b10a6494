//! Why an object states no flit.

ghost use Rattle.std.specs.Prelude.{◌≡◌};
ghost use Rattle.serde_json.specs.View.{view};
ghost use Rattle.chi_flit_text.specs.Faults.{of_flit};

use crate::member::FlitMember;
use chi_json::{MemberFault, ObjectFault};
use serde_json::Value;
use thiserror::Error;

/// Why an object states no flit: the first fault that its reading meets. The text does not say which line it is of.
///
/// - `Object`: its members are not those of a flit.
/// - `UnknownValid`: the monitor did not know whether there was a flit.
/// - `UnknownDigit`: a member whose value is looked at has a digit that is not known.
/// - `DataId`: no flit as wide as its data has this DataID.
///
/// ```
/// let fault = FlitLineFault::UnknownDigit(FlitMember::Addr); // has an x in its addr
/// ```
#[derive(Clone, Copy, Debug, PartialEq, Eq, Error)]
pub enum FlitLineFault {
    #[error("{0}")]
    Object(ObjectFault<FlitMember>),
    #[error("has a valid that is not known")]
    UnknownValid,
    #[error("has an x in its {}", .0.name())]
    UnknownDigit(FlitMember),
    #[error("has a DataID that no flit of its width has")]
    DataId,
}

impl FlitLineFault {
    /// The fault of a flit of whose object a member has one.
    pub(crate) fn of_member(object: &Value, fault: MemberFault<FlitMember>) -> FlitLineFault
        ensures { result ≡ of_flit (view object.now) fault }
    {
        FlitLineFault::Object(ObjectFault::of_member(object, fault))
    }
}
