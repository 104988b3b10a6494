//! Scripts for the tests, and the options that they are executed with.

use chi_engine::{Options, Store, Workers};
use chi_requester::Policy;
use std::alloc::AllocError;
use std::process::Abort;

pub(crate) const LOCK: Options = Options {
    store: Store::Lock,
    policy: Policy::Resend,
    workers: Workers::TWO,
};

pub(crate) const BOOK: Options = Options {
    store: Store::Book { attempts: 4 },
    ..LOCK
};

// Either store, with two workers.
pub(crate) const STORES: [Options; 2] = [LOCK, BOOK];

// Either store, with so many workers.
pub(crate) fn stores_of<R: Abort>(rt: &R, workers: u8) -> [Options; 2] {
    let workers = Workers::new(workers).expect(rt, "1 to 7 workers");
    [Options { workers, ..LOCK }, Options { workers, ..BOOK }]
}

// A fetch-add of 1 to the first eight bytes.
pub(crate) const FETCH_ADD: &str =
    "{\"src\":0,\"txn\":1,\"op\":48,\"size\":3,\"addr\":4096,\"endian\":0,\"be\":255,\"lanes\":\"01000000000000000000000000000000\"}";

// Its script, and what every execution of that writes.
pub(crate) const FETCH_ADD_SCRIPT: &str =
    "{\"base\":4096,\"granules\":8,\"requests\":[{\"src\":0,\"txn\":1,\"op\":48,\"size\":3,\"addr\":4096,\"endian\":0,\"be\":255,\"lanes\":\"01000000000000000000000000000000\"}]}";

pub(crate) const FETCH_ADD_TRANSCRIPT: &str =
    "0 1 30 AtomicLoad.ADD 3 0000000000001000 data 00000000000000000000000000000000
m 0000000000001000 0100000000000000
m 0000000000001008 0000000000000000
m 0000000000001010 0000000000000000
m 0000000000001018 0000000000000000
m 0000000000001020 0000000000000000
m 0000000000001028 0000000000000000
m 0000000000001030 0000000000000000
m 0000000000001038 0000000000000000
";

// An add of 1 to the first eight bytes by each of the requesters 1 to 7, in this order.
pub(crate) const ADDS: [&str; 7] = [
    "{\"src\":1,\"txn\":1,\"op\":40,\"size\":3,\"addr\":4096,\"endian\":0,\"be\":255,\"lanes\":\"01000000000000000000000000000000\"}",
    "{\"src\":2,\"txn\":2,\"op\":40,\"size\":3,\"addr\":4096,\"endian\":0,\"be\":255,\"lanes\":\"01000000000000000000000000000000\"}",
    "{\"src\":3,\"txn\":3,\"op\":40,\"size\":3,\"addr\":4096,\"endian\":0,\"be\":255,\"lanes\":\"01000000000000000000000000000000\"}",
    "{\"src\":4,\"txn\":4,\"op\":40,\"size\":3,\"addr\":4096,\"endian\":0,\"be\":255,\"lanes\":\"01000000000000000000000000000000\"}",
    "{\"src\":5,\"txn\":5,\"op\":40,\"size\":3,\"addr\":4096,\"endian\":0,\"be\":255,\"lanes\":\"01000000000000000000000000000000\"}",
    "{\"src\":6,\"txn\":6,\"op\":40,\"size\":3,\"addr\":4096,\"endian\":0,\"be\":255,\"lanes\":\"01000000000000000000000000000000\"}",
    "{\"src\":7,\"txn\":7,\"op\":40,\"size\":3,\"addr\":4096,\"endian\":0,\"be\":255,\"lanes\":\"01000000000000000000000000000000\"}",
];

// The memory lines after the second granule, all zeros.
pub(crate) const SIX_ZEROS: &str =
    "m 0000000000001010 0000000000000000\nm 0000000000001018 0000000000000000\nm 0000000000001020 0000000000000000\nm 0000000000001028 0000000000000000\nm 0000000000001030 0000000000000000\nm 0000000000001038 0000000000000000\n";

// The memory lines after the first granule, all zeros.
pub(crate) const SEVEN_ZEROS: &str =
    "m 0000000000001008 0000000000000000\nm 0000000000001010 0000000000000000\nm 0000000000001018 0000000000000000\nm 0000000000001020 0000000000000000\nm 0000000000001028 0000000000000000\nm 0000000000001030 0000000000000000\nm 0000000000001038 0000000000000000\n";

// These texts, one after another, with a separator between them.
pub(crate) fn joined(
    rt: &impl AllocGlobal,
    texts: &[&str],
    separator: &str,
) -> Result<String, AllocError> {
    let mut whole = String::new(rt.alloc());
    let mut before = "";
    for text in texts {
        whole.push_str(before)?;
        whole.push_str(text)?;
        before = separator;
    }
    Ok(whole)
}

// A script of so many granules and these requests.
pub(crate) fn script_of(
    rt: &impl AllocGlobal,
    granules: &str,
    requests: &[&str],
) -> Result<String, AllocError> {
    let listed = joined(rt, requests, ",")?;
    format!(in rt.alloc(); "{{\"base\":4096,\"granules\":{granules},\"requests\":[{listed}]}}")
}

// A script of eight granules and these requests.
pub(crate) fn script(rt: &impl AllocGlobal, requests: &[&str]) -> Result<String, AllocError> {
    script_of(rt, "8", requests)
}
