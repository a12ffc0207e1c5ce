//! A machine on lease as what pages of its image are sent to.

ghost use Rattle.forest_model.specs.Paged.{stalled_at};
ghost use Rattle.vm_cell.specs.Keyed.{paged};
ghost use Rattle.world_core.specs.Lent.{vm_of};
ghost use Rattle.world_core.specs.Received.{lent_without_here};

use crate::lease::Lease;
use image_depot::{Depot, ImageKey, Parcel, Receiver};
use std::alloc::{AllocError, Global};
use vm_cell::Arrived;

impl Receiver for Lease {
    ghost here = { λ l. l.pages.here };

    ghost key = { λ l. l.key };

    ghost wanted = { λ l. stalled_at (paged (vm_of l)) };

    ghost rest = { lent_without_here };

    fn key(&self) -> Option<&ImageKey> {
        Lease::key(self)
    }

    fn wanted(&self) -> Option<u32> {
        // The call tells that there is a flag for each page that a step touches.
        let _ = self.vm.pages();
        Lease::wanted(self)
    }

    fn is_here(&self, page: u32) -> bool {
        Lease::is_here(self, page)
    }

    fn arrive(
        &mut self,
        alloc: Global,
        depot: &Depot,
        parcel: &Parcel,
    ) -> Result<Arrived, AllocError> {
        Lease::arrive(self, alloc, depot, parcel)
    }
}
