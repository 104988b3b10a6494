//! What a store keeps of its opening.

ghost use Rattle.std.specs.Prelude.{◌≡◌, IfOk, length};
ghost use Rattle.chi_history.specs.Openings.{IsOpening, IsRequesterCount, opened};

use chi_fields::Region;
use chi_fields::laws::region_is_lawful;
use std::alloc::{AllocError, Allocator};
use std::marker::Model;

/// The values of an opening: the region, how many requesters there are, and the image, which is the words of the
/// memory at the opening. Contracts see an `Opening`.
#[derive(Drop)]
pub struct OpeningValues<A: Allocator> {
    region: Region,
    requesters: u8,
    image: Vec<u64, A>,
}

impl<A: Allocator> Model for OpeningValues<A> {
    ghost use Rattle.chi_history.specs.declared.opening.Opening.{Opening};

    ghost Value = { Opening };

    ghost view = { λ v. record { region = v.region; requesters = v.requesters; image = v.image.items } };
}

impl<A: Allocator> OpeningValues<A> {
    /// The values of an opening on this region for 1 to 8 requesters, with a word of the image for each granule.
    pub fn new(
        alloc: A,
        region: Region,
        requesters: u8,
        image: &[u64],
    ) -> Result<OpeningValues<A>, AllocError>
        requires count { IsRequesterCount requesters }
        requires imaged { length image.now ≡ region.granules }
        ensures values { IfOk result (λ v. v ≡ opened region requesters image.now) }
        ensures opening { IfOk result (λ v. IsOpening v) }
    {
        region_is_lawful(&region);
        Ok(OpeningValues {
            region,
            requesters,
            image: Vec::from_slice(alloc, image)?,
        })
    }

    /// The region.
    pub fn region(&self) -> Region
        ensures { result ≡ self.now.region }
    {
        self.region
    }

    /// How many requesters there are.
    pub fn requesters(&self) -> u8
        ensures { result ≡ self.now.requesters }
    {
        self.requesters
    }

    /// The words of the memory at the opening, one for each granule.
    pub fn image(&self) -> &[u64]
        ensures { result.now ≡ self.now.image }
    {
        self.image.as_slice()
    }
}
