//! Scripts whose memory opens with an image.

use crate::tests::answers::{Engine, assert_written_by_each, refusal_of};
use crate::tests::comparison::assert_same;
use crate::tests::scripts::{BOOK, FETCH_ADD, STORES, stores_of};
use chi_script::{Member, ScriptFault};
use std::alloc::AllocError;
use std::process::Abort;
use std::sync::Wait;
use std::test::Fail;
use std::thread::Threads;

// A script of so many granules with this image and these requests.
fn with_image(
    rt: &impl AllocGlobal,
    granules: u8,
    image: &str,
    requests: &str,
) -> Result<String, AllocError> {
    format!(in rt.alloc();
        "{{\"base\":4096,\"granules\":{granules},\"image\":\"{image}\",\"requests\":[{requests}]}}"
    )
}

#[test]
fn opening_image(rt: HostRuntime) -> Result<(), Fail> {
    for (image, requests, want) in &[
        (
            "FFFFFFFFFFFFFFFF",
            FETCH_ADD,
            "0 1 30 AtomicLoad.ADD 3 0000000000001000 data ffffffffffffffff0000000000000000
m 0000000000001000 0000000000000000
",
        ),
        (
            "0011223344556677",
            "",
            "m 0000000000001000 0011223344556677\n",
        ),
    ] {
        let text = with_image(&rt, 1, image, requests)?;
        assert_written_by_each(&rt, Engine::Run, &STORES, text.as_str(), want)?;
    }
    Ok(())
}

// A request of each requester 0 to 4, on two of the granules, one of them past the region.
const FIVE_REQUESTS: &str =
    "{\"src\":1,\"txn\":1,\"op\":56,\"size\":3,\"addr\":4096,\"endian\":0,\"be\":255,\"lanes\":\"01020304050607080000000000000000\"},\
{\"src\":2,\"txn\":2,\"op\":53,\"size\":2,\"addr\":4104,\"endian\":1,\"be\":3840,\"lanes\":\"0000000000000000ff00000000000000\"},\
{\"src\":3,\"txn\":3,\"op\":29,\"size\":3,\"addr\":4112,\"endian\":0,\"be\":0,\"lanes\":\"00000000000000000000000000000000\"},\
{\"src\":4,\"txn\":4,\"op\":4,\"size\":3,\"addr\":4160,\"endian\":0,\"be\":0,\"lanes\":\"00000000000000000000000000000000\"},\
{\"src\":0,\"txn\":5,\"op\":4,\"size\":3,\"addr\":4152,\"endian\":0,\"be\":0,\"lanes\":\"00000000000000000000000000000000\"}";

const IMAGE_BY_CHANCE: &str =
    "3e91c7054bd8fa2619b3706ef2a60c718c1e95d4037ab6f05d2b80e94c17a36fc08451fb29de70361f9ae36d02b8457c67d5048b3ec92af1b23f7c60958e1d4a";

// What every schedule of them writes over this image: five lines, and the image with two granules changed.
const FIVE_TRANSCRIPT: &str =
    "1 1 38 AtomicSwap 3 0000000000001000 data 3e91c7054bd8fa260000000000000000
2 2 35 AtomicLoad.SMIN 2 0000000000001008 data 000000000000000019b3706e00000000
3 3 1d Unknown 3 0000000000001010 refused UnknownOpcode
4 4 04 ReadNoSnp 3 0000000000001040 refused OutOfRegion
0 5 04 ReadNoSnp 3 0000000000001038 data 0000000000000000b23f7c60958e1d4a
m 0000000000001000 0102030405060708
m 0000000000001008 ff000000f2a60c71
m 0000000000001010 8c1e95d4037ab6f0
m 0000000000001018 5d2b80e94c17a36f
m 0000000000001020 c08451fb29de7036
m 0000000000001028 1f9ae36d02b8457c
m 0000000000001030 67d5048b3ec92af1
m 0000000000001038 b23f7c60958e1d4a
";

// The same image over both stores: by a run, and by a race of four.
#[test]
fn opening_image_of_eight_granules(rt: HostRuntime) -> Result<(), Fail> {
    let text = with_image(&rt, 8, IMAGE_BY_CHANCE, FIVE_REQUESTS)?;
    for (engine, all) in &[(Engine::Run, STORES), (Engine::Race, stores_of(&rt, 4))] {
        assert_written_by_each(&rt, *engine, all, text.as_str(), FIVE_TRANSCRIPT)?;
    }
    Ok(())
}

// A race of the text is refused for its image.
fn assert_refused<T: AllocGlobal + Abort + Threads + Wait + Sync>(rt: &T, text: &str) {
    assert_same(
        &rt,
        refusal_of(rt, Engine::Race, &BOOK, text.as_bytes()),
        Some(ScriptFault::BadMember(Member::Image)),
    );
}

#[test]
fn image_of_wrong_length(rt: HostRuntime) -> Result<(), Fail> {
    for image in &["", "001122334455667", "00112233445566778"] {
        let text = with_image(&rt, 1, image, "")?;
        assert_refused(&rt, text.as_str());
    }
    assert_refused(&rt, "{\"base\":4096,\"granules\":1,\"image\":null}");
    Ok(())
}
