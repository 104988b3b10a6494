//! The region of memory that a home serves.

ghost use Rattle.std.specs.Prelude.{◌≡◌};
ghost use Rattle.chi_fields.specs.Extent.{fault_name};

use std::marker::Model;
use thiserror::Error;

/// The greatest number of granules in a region.
pub const MOST_GRANULES: u16 = 512;

/// How many addresses there are: they have 52 bits.
///
/// Source: Arm IHI 0050 Issue B, the widest address of a request.
pub const ADDRESSES: u64 = 1 << 52;

/// Why a region is refused.
#[derive(Clone, Copy, Debug, PartialEq, Eq, Error)]
pub enum RegionFault {
    #[error("the base is not a multiple of 64")]
    BaseNotLineAligned,
    #[error("the number of granules is not 1 to {MOST_GRANULES}")]
    GranuleCount,
    #[error("the end is past the last address")]
    EndPastAddresses,
}

/// So many granules of eight bytes, from a base on that is a multiple of 64.
#[derive(Clone, Copy, Debug, PartialEq, Eq)]
pub struct Region {
    base: u64,
    granules: u16,
}

impl Model for Region {
    ghost use Rattle.chi_fields.specs.Extent.{Extent, IsRegion};

    ghost Value = { Extent };

    ghost view = { λ a. record { base = a.base; granules = a.granules } };

    ghost invariant = { λ a. IsRegion (record { base = a.base; granules = a.granules }) };

    ghost inverse = { λ e. record { base = e.base; granules = e.granules } };
}

impl Region {
    ghost use Rattle.chi_fields.specs.Extent.{IsRegion, lies_in, region_of};

    /// A region of `granules` granules, 1 to 512, from the address `base` on.
    ///
    /// ```
    /// let region = Region::new(0x1000, 8)?;
    /// ```
    pub fn new(base: u64, granules: u16) -> Result<Region, RegionFault>
        ensures { result ≡ region_of base granules }
    {
        if base % 64 != 0 {
            return Err(RegionFault::BaseNotLineAligned);
        }
        if granules < 1 || granules > MOST_GRANULES {
            return Err(RegionFault::GranuleCount);
        }
        if base > ADDRESSES - 8 * u64::from(granules) {
            return Err(RegionFault::EndPastAddresses);
        }
        Ok(Region { base, granules })
    }

    /// The address of the region's first byte.
    pub fn base(&self) -> u64
        ensures value { result ≡ self.now.base }
        ensures region { IsRegion self.now }
    {
        self.base
    }

    /// How many granules of eight bytes the region has.
    pub fn granules(&self) -> u16
        ensures value { result ≡ self.now.granules }
        ensures region { IsRegion self.now }
    {
        self.granules
    }

    // Whether each of so many bytes from an address on is in the region.
    pub(crate) fn has(&self, addr: u64, len: u8) -> bool
        ensures { result ≡ lies_in addr len self.now }
    {
        let len = u64::from(len);
        let size = 8 * u64::from(self.granules);
        addr >= self.base && len <= size && addr - self.base <= size - len
    }
}

/// The fault's name, as `GranuleCount`.
pub fn region_fault_name(fault: RegionFault) -> &'static str
    ensures { result.now ≡ fault_name fault }
{
    match fault {
        RegionFault::BaseNotLineAligned => "BaseNotLineAligned",
        RegionFault::GranuleCount => "GranuleCount",
        RegionFault::EndPastAddresses => "EndPastAddresses",
    }
}
