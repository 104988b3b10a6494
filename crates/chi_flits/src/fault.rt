//! Why a flit cannot come next.

ghost use Rattle.std.specs.Prelude.{◌≡◌};
ghost use Rattle.chi_flits.specs.Faults.{fault_if};

use std::alloc::AllocError;
use thiserror::Error;

/// Why a flit cannot come after those before it: no requester and no home that keep to the protocol send it then, or the monitor is
/// not bound as it should be.
///
/// - `TimeFalls`: it is earlier than the one before it.
/// - `TakesOpen`: a request takes a TxnID of its requester's that is not free again.
/// - `NotOpen`: no request has this TxnID, or nothing more is to come to it.
/// - `RetryLate`: a RetryAck follows another answer.
/// - `SecondDbid`: the request has a DBID, or needs none.
/// - `DbidTaken`: data are still to come by this DBID.
/// - `CompletedTwice`: the request is completed.
/// - `NoData`: a completion without data, and without an error, to a request that is answered by data.
/// - `DataUnasked`: data to a request that is completed without.
/// - `NotGiven`: no data are to come by this DBID.
/// - `OtherData`: its DataID is that of no data of its request, or of some that came before.
/// - `CancelsOther`: a WriteDataCancel to another request than WriteNoSnpPtl.
/// - `CancelsSome`: a WriteDataCancel of some of a request's data, and not of all.
/// - `UnknownLane`: a lane of the operand that was answered is not known.
/// - `UnknownEnable`: a byte enable that counts is not known.
/// - `UnknownSent`: an enabled lane is not known.
/// - `NotFull`: a byte enable of WriteNoSnpFull is 0.
/// - `TooMany`: 2^61 flits came before it.
///
/// ```
/// let fault = FlitFault::NotOpen; // is of no open request
/// ```
#[derive(Clone, Copy, Debug, PartialEq, Eq, Error)]
pub enum FlitFault {
    #[error("is earlier than the flit before it")]
    TimeFalls,
    #[error("takes the TxnID of an open request")]
    TakesOpen,
    #[error("is of no open request")]
    NotOpen,
    #[error("is RetryAck to a request that had another answer")]
    RetryLate,
    #[error("gives a DBID to a request that has one or needs none")]
    SecondDbid,
    #[error("gives a DBID that its requester still has")]
    DbidTaken,
    #[error("completes a request that is complete")]
    CompletedTwice,
    #[error("is a completion without data, of a request that answers data")]
    NoData,
    #[error("has data for a request that answers none")]
    DataUnasked,
    #[error("is of no DBID that was given")]
    NotGiven,
    #[error("has a DataID that its request does not have, or had before")]
    OtherData,
    #[error("cancels the data of a request that is no WriteNoSnpPtl")]
    CancelsOther,
    #[error("cancels some of the data of a request, and not all")]
    CancelsSome,
    #[error("has an x in a lane of its operand")]
    UnknownLane,
    #[error("has an x in its byte enables")]
    UnknownEnable,
    #[error("has an x in an enabled lane")]
    UnknownSent,
    #[error("has byte enables that are 0, and all of WriteNoSnpFull are 1")]
    NotFull,
    #[error("is one of too many flits")]
    TooMany,
    #[error("no memory")]
    Memory,
}

impl From<AllocError> for FlitFault {
    ghost use Rattle.chi_flits.specs.declared.fault.FlitFault.TheVariants.{Memory};

    ghost from_gives = { λ fault result. result ≡ Memory };

    fn from(_fault: AllocError) -> FlitFault {
        FlitFault::Memory
    }
}

/// The fault where a test holds.
pub(crate) fn fault_if(test: bool, fault: FlitFault) -> Option<FlitFault>
    ensures { result ≡ fault_if test fault }
{
    if test { Some(fault) } else { None }
}
