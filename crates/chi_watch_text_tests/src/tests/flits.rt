//! Texts of flits at a home's port, whose bus has 16 bytes. The requester is node 3.

use crate::tests::events::STOPPING;
use chi_watch_text::{ErrorEffect, LineFormat, WatchOptions};

/// That the word at address 4096 is 5 before its first request. It is an event.
pub(crate) const WORD: &str = r#"{"time":0,"event":"word","addr":4096,"bytes":"0500000000000000"}
"#;

/// ReadNoSnp of the eight bytes at address 4096, with TxnID 4.
pub(crate) const READ: &str =
    r#"{"time":3,"channel":"REQ","src":"03","txn":"04","opcode":"04","size":"3","addr":"0000000001000"}
"#;

/// PCrdReturn, which is no request and tells nothing.
pub(crate) const CREDIT: &str =
    r#"{"time":4,"channel":"REQ","src":"03","txn":"00","opcode":"05","size":"0","addr":"0000000000000"}
"#;

/// The same before all others.
pub(crate) const CREDIT_BEFORE: &str =
    r#"{"time":0,"channel":"REQ","src":"03","txn":"00","opcode":"05","size":"0","addr":"0000000000000"}
"#;

/// CompData of that read: 5, or 6; or with a digit of lane 1 that is not known. Lanes 8 to 15 are not of the operand.
pub(crate) const FIVE: &str =
    r#"{"time":5,"channel":"RDAT","tgt":"03","txn":"04","opcode":"4","resp_err":"0","data_id":"0","data":"xxxxxxxxxxxxxxxx0000000000000005"}
"#;

pub(crate) const SIX: &str =
    r#"{"time":5,"channel":"RDAT","tgt":"03","txn":"04","opcode":"4","resp_err":"0","data_id":"0","data":"xxxxxxxxxxxxxxxx0000000000000006"}
"#;

pub(crate) const UNKNOWN_LANE: &str =
    r#"{"time":5,"channel":"RDAT","tgt":"03","txn":"04","opcode":"4","resp_err":"0","data_id":"0","data":"00000000000000000000000000000x05"}
"#;

/// A write of 6 to address 4096 and of 7 to address 4104, by one request with TxnID 1: WriteNoSnpPtl of 16 bytes, CompDBIDResp that
/// gives DBID 9, and NonCopyBackWrData.
pub(crate) const WRITE: &str =
    r#"{"time":1,"channel":"REQ","src":"03","txn":"01","opcode":"1c","size":"4","addr":"0000000001000"}
{"time":2,"channel":"RSP","tgt":"03","txn":"01","opcode":"5","resp_err":"0","dbid":"09"}
{"time":3,"channel":"WDAT","src":"03","txn":"09","opcode":"3","data_id":"0","be":"ffff","data":"00000000000000070000000000000006"}
"#;

/// A read of address 4096 that tells 6.
pub(crate) const LOW: &str =
    r#"{"time":5,"channel":"REQ","src":"03","txn":"02","opcode":"04","size":"3","addr":"0000000001000"}
{"time":6,"channel":"RDAT","tgt":"03","txn":"02","opcode":"4","resp_err":"0","data_id":"0","data":"xxxxxxxxxxxxxxxx0000000000000006"}
"#;

/// A read of address 4104 that tells 7, or 6.
pub(crate) const HIGH: &str =
    r#"{"time":7,"channel":"REQ","src":"03","txn":"03","opcode":"04","size":"3","addr":"0000000001008"}
{"time":8,"channel":"RDAT","tgt":"03","txn":"03","opcode":"4","resp_err":"0","data_id":"0","data":"0000000000000007xxxxxxxxxxxxxxxx"}
"#;

pub(crate) const STALE_HIGH: &str =
    r#"{"time":7,"channel":"REQ","src":"03","txn":"03","opcode":"04","size":"3","addr":"0000000001008"}
{"time":8,"channel":"RDAT","tgt":"03","txn":"03","opcode":"4","resp_err":"0","data_id":"0","data":"0000000000000006xxxxxxxxxxxxxxxx"}
"#;

/// A read of both that tells 1 and 1, by one flit.
pub(crate) const STALE_BOTH: &str =
    r#"{"time":7,"channel":"REQ","src":"03","txn":"03","opcode":"04","size":"4","addr":"0000000001000"}
{"time":8,"channel":"RDAT","tgt":"03","txn":"03","opcode":"4","resp_err":"0","data_id":"0","data":"00000000000000010000000000000001"}
"#;

/// That the word at address 4104 is 7 after its last request. It is an event.
pub(crate) const LAST: &str =
    r#"{"time":9,"event":"word","addr":4104,"bytes":"0700000000000000","final":true}
"#;

/// Lines of flits are watched, up to the first granule that is found.
pub(crate) const FLITS: WatchOptions = WatchOptions {
    format: LineFormat::Flits {
        errors: ErrorEffect::Unknown,
    },
    ..STOPPING
};
