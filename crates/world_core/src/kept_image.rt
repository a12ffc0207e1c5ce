//! What the children of a ticket start with, as long as one of them is a descriptor.

ghost use Rattle.std.specs.Prelude.{◌≡◌, IfOk};

use std::alloc::{AllocError, Global};
use std::marker::Model;
use vm_cell::ForkImage;

/// What the children of a ticket start with. It has a place of its own: most tickets have let go of theirs, and the row of
/// a map in which a ticket lies has room for eleven.
#[derive(Drop)]
pub(crate) struct KeptImage {
    image: Box<ForkImage>,
}

impl Model for KeptImage {
    ghost use Rattle.vm_cell.specs.declared.vm.fork.ForkImage.{ForkImage};

    ghost Value = { ForkImage };

    ghost view = { λ k. k.image.value };
}

impl KeptImage {
    pub(crate) fn new(alloc: Global, image: ForkImage) -> Result<KeptImage, AllocError>
        ensures { IfOk result (λ kept. kept ≡ image) }
    {
        let image = Box::new(alloc, image)?;
        Ok(KeptImage { image })
    }

    pub(crate) fn get(&self) -> &ForkImage
        ensures { result.now ≡ self.now }
    {
        &self.image
    }
}
