//! Tests of scripts by chance as texts.

use crate::tests::comparison::assert_same;
use crate::tests::executed::{script_of, stimulus};
use chi_fields::Region;
use chi_stimulus::{Stimulus, generated_script};
use std::test::Fail;

/// The same seed makes the same script, and another one another.
#[test]
fn a_seed_makes_one_script(rt: HostRuntime) -> Result<(), Fail> {
    let alloc = rt.alloc();
    let first = generated_script(alloc, &stimulus(1)?)?;
    let again = generated_script(alloc, &stimulus(1)?)?;
    let other = generated_script(alloc, &stimulus(2)?)?;
    assert_same(&rt, first.as_str() == again.as_str(), true);
    assert_same(&rt, first.as_str() == other.as_str(), false);
    Ok(())
}

/// The script is of the region, has as many requests, of as many requesters, and opens with zeros or with an image.
#[test]
fn what_is_asked_for(rt: HostRuntime) -> Result<(), Fail> {
    let alloc = rt.alloc();
    let last = Stimulus {
        requests: 100,
        region: Region::new((1 << 52) - 64, 8)?,
        requesters: 8,
        ..stimulus(3)?
    };
    let script = script_of(alloc, &last)?;
    assert_same(&rt, script.region(), last.region);
    assert_same(&rt, script.requests().len(), 100);
    assert_same(&rt, script.image(), [0; 8].as_slice());
    let most = script.requests().iter().map(|request| request.src).max();
    assert_same(&rt, most, Some(7));
    let with_image = script_of(
        alloc,
        &Stimulus {
            image: true,
            ..last
        },
    )?;
    assert_same(&rt, with_image.image() == [0; 8].as_slice(), false);
    Ok(())
}

/// No request at all, and more than a script has.
#[test]
fn few_and_many(rt: HostRuntime) -> Result<(), Fail> {
    let alloc = rt.alloc();
    for (asked, count) in [(0, 0), (1, 1), (4096, 4096), (65535, 4096)] {
        let script = script_of(
            alloc,
            &Stimulus {
                requests: asked,
                ..stimulus(3)?
            },
        )?;
        assert_same(&rt, (asked, script.requests().len()), (asked, count));
    }
    Ok(())
}
