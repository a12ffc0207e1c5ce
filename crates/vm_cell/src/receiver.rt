//! A machine as what pages of its image are sent to.

ghost use Rattle.forest_model.specs.Paged.{stalled_at};
ghost use Rattle.vm_hart.specs.Keyed.{paged};
ghost use Rattle.vm_cell.specs.Received.{without_here};

use crate::vm::Vm;
use guest_mem::Arrived;
use image_depot::{Depot, ImageKey, Parcel, Receiver};
use std::alloc::{AllocError, Global};

impl Receiver for Vm {
    ghost here = { λ v. v.pages.here };

    ghost key = { λ v. v.key };

    ghost wanted = { λ v. stalled_at (paged v) };

    ghost rest = { without_here };

    fn key(&self) -> Option<&ImageKey> {
        Vm::key(self)
    }

    fn wanted(&self) -> Option<u32> {
        // The call tells that there is a flag for each page that a step touches.
        let _ = self.pages();
        Vm::wanted(self)
    }

    fn is_here(&self, page: u32) -> bool {
        Vm::is_here(self, page)
    }

    fn arrive(
        &mut self,
        alloc: Global,
        depot: &Depot,
        parcel: &Parcel,
    ) -> Result<Arrived, AllocError> {
        Vm::arrive(self, alloc, depot, parcel)
    }
}
