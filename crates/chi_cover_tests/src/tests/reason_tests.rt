//! How many requests were refused for each reason, worked by hand.

use crate::tests::comparison::assert_same;
use chi_cover::{Refusals, add_refusals};
use chi_fields::Refusal;
use std::test::Fail;

// Two requests were refused for one reason and one for another. The counts of two traces add up.
#[test]
fn two_of_six_reasons(rt: HostRuntime) -> Result<(), Fail> {
    let mut text = Vec::from_slice(rt.alloc(), b"before\n")?;
    let mut refusals = Refusals::none();
    refusals.add(&[Refusal::Misaligned, Refusal::OutOfRegion]);
    refusals.add(&[]);
    refusals.add(&[Refusal::Misaligned]);
    add_refusals(&mut text, &refusals)?;
    let wanted = "before
refusals: 2 of 6
UnknownOpcode: 0
ReservedSize: 0
SizeOutOfProfile: 0
Misaligned: 2
OutOfRegion: 1
BadByteEnable: 0
missing: UnknownOpcode
missing: ReservedSize
missing: SizeOutOfProfile
missing: BadByteEnable
";
    assert_same(&rt, text.as_slice(), wanted.as_bytes());
    Ok(())
}

#[test]
fn each_of_six_reasons(rt: HostRuntime) -> Result<(), Fail> {
    let mut text = Vec::new(rt.alloc());
    let mut refusals = Refusals::none();
    refusals.add(&[
        Refusal::BadByteEnable,
        Refusal::OutOfRegion,
        Refusal::Misaligned,
        Refusal::SizeOutOfProfile,
        Refusal::ReservedSize,
        Refusal::UnknownOpcode,
    ]);
    add_refusals(&mut text, &refusals)?;
    let wanted = "refusals: 6 of 6
UnknownOpcode: 1
ReservedSize: 1
SizeOutOfProfile: 1
Misaligned: 1
OutOfRegion: 1
BadByteEnable: 1
";
    assert_same(&rt, text.as_slice(), wanted.as_bytes());
    Ok(())
}

#[test]
fn counts_of_reasons(rt: HostRuntime) -> Result<(), Fail> {
    let mut refusals = Refusals::none();
    refusals.add(&[Refusal::BadByteEnable, Refusal::BadByteEnable]);
    let found = (
        refusals.count(Refusal::BadByteEnable),
        refusals.count(Refusal::OutOfRegion),
        refusals.count(Refusal::UnknownOpcode),
    );
    assert_same(&rt, found, (2, 0, 0));
    Ok(())
}
