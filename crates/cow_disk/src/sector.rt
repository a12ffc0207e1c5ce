ghost use Rattle.std.specs.Prelude.{◌≡◌, OnOk, OnErr, IfOk};
ghost use Rattle.std.specs.Arc.{arc_value};
ghost use Rattle.flat_memory.specs.Flat.{zeros};

use crate::disk::SECTOR_SIZE;
use shared_leaves::Handle;
use std::alloc::{AllocError, Global};
use std::marker::Model;
use std::sync::Arc;

/// The bytes of a sector, which disks share until one of them writes it.
#[derive(Drop)]
pub struct Sector {
    /// None: zeros, for which no memory is taken.
    bytes: Option<Arc<[u8; SECTOR_SIZE]>>,
}

impl Model for Sector {
    ghost use Rattle.std.specs.Prelude.{ℕ, List};
    ghost use Rattle.std.specs.Arc.{arc_value};
    ghost use Rattle.std.specs.Option.{option_map_or};
    ghost use Rattle.flat_memory.specs.Flat.{zeros};
    ghost use Rattle.cow_disk.specs.declared.disk.TheConstants.{SECTOR_SIZE};

    ghost Value = { List ℕ };

    ghost view = { λ s. option_map_or arc_value s.bytes (zeros SECTOR_SIZE) };
}

impl Default for Sector {
    fn default() -> Sector {
        Sector { bytes: None }
    }
}

impl Clone for Sector {
    ghost use Rattle.std.specs.Prelude.{◌≡◌};

    ghost is_clone = { λ sector copy. copy ≡ sector };

    // The copy shares the bytes.
    fn clone(&self) -> Result<Sector, AllocError> {
        match &self.bytes {
            Some(bytes) => Ok(Sector {
                bytes: Some(Arc::try_clone(bytes)?),
            }),
            None => Ok(Sector { bytes: None }),
        }
    }
}

impl Handle for Sector {
    ghost use Rattle.std.proofs.Common.{lit<};

    ghost clone_is_equal = { λ sector copy same. same };

    ghost is_small = { (lit< tt, lit< tt) };
}

impl Sector {
    /// A sector of zeros, for which no memory is taken.
    pub fn zeros() -> Sector
        ensures { result ≡ zeros SECTOR_SIZE }
    {
        Sector { bytes: None }
    }

    pub fn new(alloc: Global, bytes: &[u8; SECTOR_SIZE]) -> Result<Sector, AllocError>
        ensures { IfOk result (λ sector. sector ≡ bytes.now) }
    {
        Ok(Sector {
            bytes: Some(Arc::new(alloc, *bytes)?),
        })
    }

    pub fn bytes(&self) -> &[u8; SECTOR_SIZE]
        ensures { result.now ≡ self.now }
    {
        match &self.bytes {
            Some(bytes) => bytes,
            None => &[0; SECTOR_SIZE],
        }
    }

    /// Writes the bytes in their place where no other disk shares them, and else to a place of their
    /// own.
    pub fn write(&mut self, alloc: Global, bytes: &[u8; SECTOR_SIZE]) -> Result<(), AllocError>
        ensures ok { OnOk result (self.new ≡ bytes.now) }
        ensures err { OnErr result (self.new ≡ self.old) }
    {
        match &mut self.bytes {
            Some(shared) => write_shared(shared, alloc, bytes),
            None => {
                self.bytes = Some(Arc::new(alloc, *bytes)?);
                Ok(())
            }
        }
    }
}

/// Writes bytes, which this owner gets a place of their own for where there are others.
fn write_shared(
    shared: &mut Arc<[u8; SECTOR_SIZE]>,
    alloc: Global,
    bytes: &[u8; SECTOR_SIZE],
) -> Result<(), AllocError>
    ensures ok { OnOk result (arc_value shared.new ≡ bytes.now) }
    ensures err { OnErr result (arc_value shared.new ≡ arc_value shared.old) }
{
    match Arc::get_mut(shared) {
        Some(own) => *own = *bytes,
        None => *shared = Arc::new(alloc, *bytes)?,
    }
    Ok(())
}
