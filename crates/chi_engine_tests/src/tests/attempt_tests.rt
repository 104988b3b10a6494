//! Numbers of attempts that the lock-free store refuses, and of workers that no race has.

use crate::tests::answers::{ENGINES, fault_of};
use crate::tests::comparison::assert_same;
use crate::tests::scripts::{BOOK, FETCH_ADD_SCRIPT};
use chi_engine::{EngineFault, Options, Store, Workers};
use chi_history::OpenFault;
use std::test::Fail;

// The fault of the opening.
fn open_fault(fault: EngineFault) -> Option<OpenFault> {
    match fault {
        EngineFault::Open(found) => Some(found),
        _ => None,
    }
}

#[test]
fn attempts_out_of_range(rt: HostRuntime) -> Result<(), Fail> {
    for attempts in [0, 17] {
        let store = Store::Book { attempts };
        let book = Options { store, ..BOOK };
        for engine in ENGINES {
            let fault = fault_of(&rt, engine, &book, FETCH_ADD_SCRIPT.as_bytes());
            let found = (attempts, open_fault(fault));
            assert_same(&rt, found, (attempts, Some(OpenFault::AttemptCount)));
        }
    }
    Ok(())
}

#[test]
fn workers_out_of_range(rt: HostRuntime) -> Result<(), Fail> {
    for count in 0..=u8::MAX {
        let workers = Workers::new(count).map(|workers| workers.count());
        let want = matches!(count, 1..=7).then_some(count);
        assert_same(&rt, (count, workers), (count, want));
    }
    Ok(())
}
