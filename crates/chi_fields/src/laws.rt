//! Laws of accesses and regions. Each function only reads: its contract is the law, for proofs that call it.

ghost use Rattle.chi_fields.specs.Access.{IsLawful};
ghost use Rattle.chi_fields.specs.Extent.{IsRegion};

use crate::access::Access;
use crate::region::Region;

/// The operand of an access has 1, 2, 4 or 8 bytes and is aligned, and its byte enables are as its window asks.
#[inline(always)]
pub fn access_is_lawful(access: &Access)
    ensures { IsLawful access.now }
{
    let _len = access.len();
}

/// A region begins at a multiple of 64, has 1 to 512 granules, and ends at 2^52 at most.
#[inline(always)]
pub fn region_is_lawful(region: &Region)
    ensures { IsRegion region.now }
{
    let _base = region.base();
}
