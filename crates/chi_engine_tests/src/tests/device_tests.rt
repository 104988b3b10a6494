//! Devices that fail.

use crate::tests::answers::{ENGINES, Engine};
use crate::tests::devices::{End, assert_cut, assert_never_read};
use crate::tests::scripts::STORES;
use chi_script::WriteFault;
use std::test::Fail;

#[test]
fn failing_devices(rt: HostRuntime) -> Result<(), Fail> {
    for options in &STORES {
        let fails = (End::Fault, WriteFault::Failed);
        assert_cut(&rt, Engine::Run, options, fails, b"0 1 30 Ato");
        for engine in ENGINES {
            assert_never_read(&rt, engine, options, usize::MAX);
        }
    }
    Ok(())
}
