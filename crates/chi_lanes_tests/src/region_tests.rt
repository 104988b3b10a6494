//! Tests of making a region.

use crate::comparison::assert_same;
use chi_fields::{Region, RegionFault};
use std::test::Fail;

#[test]
fn regions_and_their_faults(rt: HostRuntime) {
    let regions = [
        (4097, 0, Some(RegionFault::BaseNotLineAligned)),
        (4503599627370497, 513, Some(RegionFault::BaseNotLineAligned)),
        (4128, 8, Some(RegionFault::BaseNotLineAligned)),
        (4096, 0, Some(RegionFault::GranuleCount)),
        (4096, 513, Some(RegionFault::GranuleCount)),
        (4096, 65535, Some(RegionFault::GranuleCount)),
        (4503599627370496, 513, Some(RegionFault::GranuleCount)),
        (4503599627370496, 1, Some(RegionFault::EndPastAddresses)),
        (4503599627370432, 9, Some(RegionFault::EndPastAddresses)),
        (18446744073709551552, 8, Some(RegionFault::EndPastAddresses)),
        (4503599627370432, 8, None),
        (4096, 1, None),
        (4096, 9, None),
        (4096, 512, None),
        (4503599627366400, 512, None),
        (4503599627366464, 512, Some(RegionFault::EndPastAddresses)),
        (0, 8, None),
    ];
    for (base, granules, want) in regions {
        assert_same(
            &rt,
            ((base, granules), Region::new(base, granules).err()),
            ((base, granules), want),
        );
    }
}

#[test]
fn region_as_made(rt: HostRuntime) -> Result<(), Fail> {
    let region = Region::new(4503599627370432, 7)?;
    assert_same(&rt, region.base(), 4503599627370432);
    assert_same(&rt, region.granules(), 7);
    Ok(())
}
