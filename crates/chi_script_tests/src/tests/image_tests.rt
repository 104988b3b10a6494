//! Tests of a script's image.

use crate::tests::comparison::assert_same;
use crate::tests::sample_scripts::assert_fault;
use chi_fields::RegionFault;
use chi_script::{Member, ScriptFault, read_script};
use std::process::Abort;

// Compares the fault of a script of one granule with this image, whatever its further members are.
fn assert_not_as_stated<R: AllocGlobal + Abort>(rt: &R, image: &str) {
    let wanted = Some(ScriptFault::BadMember(Member::Image));
    for further in [r#","requests":[]"#, "", r#","requests":7"#] {
        let text = format!(in rt.alloc();
            "{{\"base\":4096,\"granules\":1,\"image\":{image}{further}}}"
        ).expect(rt, "memory");
        assert_fault(rt, text.as_str(), text.as_bytes(), 7, wanted);
    }
}

// One granule has 16 digits. The texts of digits have 0, 14, 15, 17 and 18 of them, and 16 with one that is none.
#[test]
fn image_not_as_stated(rt: HostRuntime) {
    for image in [
        r#""""#,
        r#""01234567890123""#,
        r#""012345678901234""#,
        r#""01234567890123456""#,
        r#""012345678901234567""#,
        r#""001122334455667g""#,
        "null",
        "0",
        "[]",
    ] {
        assert_not_as_stated(&rt, image);
    }
}

// A script of so many granules and an image of so many hex digits, `0` to `9` in turn.
fn script_of_digits<R: AllocGlobal + Abort>(rt: &R, granules: usize, digits: usize) -> String {
    let mut image = String::new(rt.alloc());
    for at in 0..digits {
        let digit = char::from(b'0' + (at % 10) as u8);
        image.push(digit).expect(rt, "memory");
    }
    format!(in rt.alloc();
        "{{\"base\":4096,\"granules\":{granules},\"image\":\"{image}\",\"requests\":[]}}"
    ).expect(rt, "memory")
}

// The image is read whatever the number of granules is, and the region is refused after it.
#[test]
fn image_of_refused_region(rt: HostRuntime) {
    let refused = Some(ScriptFault::RegionRefused(RegionFault::GranuleCount));
    let wrong = Some(ScriptFault::BadMember(Member::Image));
    for (granules, digits, wanted) in [
        (0, 0, refused),
        (513, 8207, wrong),
        (513, 8208, refused),
        (513, 8209, wrong),
        (65535, 1_048_559, wrong),
        (65535, 1_048_560, refused),
        (65535, 1_048_561, wrong),
    ] {
        let text = script_of_digits(&rt, granules, digits);
        assert_fault(&rt, "an image of digits", text.as_bytes(), 7, wanted);
    }
}

#[test]
fn image_of_512_granules(rt: HostRuntime) {
    let text = script_of_digits(&rt, 512, 16 * 512);
    match read_script(rt.alloc(), text.as_bytes(), 7) {
        Ok(script) => {
            let words = script.image();
            let ends = (words.len(), words.first().copied(), words.last().copied());
            let (first, last) = (0x4523_0189_6745_2301, 0x0189_6745_2301_8967);
            assert_same(&rt, ends, (512, Some(first), Some(last)));
        }
        Err(_) => panic!(rt; "512 granules are refused"),
    }
}
