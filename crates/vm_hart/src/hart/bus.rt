//! Loads and stores of the ports, as the definitions have them. The disk lies over that of the image of the key.

ghost use Rattle.std.specs.Prelude.{◌≡◌, ◌<◌, IfOk, IfSome, IsErr, IsErrOf, IsNone, None, OnErr};
ghost use Rattle.forest_model.specs.Memory.{needs_at};
ghost use Rattle.port_map.specs.Bus.{place_of, port_load, port_store, WantsMemory};
ghost use Rattle.vm_hart.specs.Acts.{HasRead, HasStored, IsMet, WaitsAt};

use super::Hart;
use fork_port::refusals::TICKETS_END;
use port_error::{Fault, PortError};
use vm_bus::Effect;

impl Hart {
    /// Loads `width` bytes from a port.
    #[inline(always)]
    pub(super) fn load_port(&mut self, address: u32, width: u32) -> Result<u32, Fault>
        ensures ok { IfOk result (HasRead self.old self.new address width) }
        ensures fault { IsErr result → port_load self.old.state.ports address width ≡ None }
        ensures err { OnErr result (self.new ≡ self.old) }
    {
        self.ports.load(address, width)
    }

    /// Stores the low `width` bytes of `word` to a port. The page of the disk that this needs is here.
    #[inline(always)]
    pub(super) fn store_port(
        &mut self,
        address: u32,
        width: u32,
        word: u32,
    ) -> Result<Effect, PortError>
        requires tickets { self.old.state.ports.fork.next_ticket < TICKETS_END }
        requires here { IsMet (needs_at (place_of address) width word self.old.state) self.old.pages }
        ensures ok { IfOk result (HasStored self.old self.new address width word) }
        ensures fault { IsErrOf result PortError.Fault → port_store self.old.state.ports address width word ≡ None }
        ensures err { OnErr result (self.new ≡ self.old) }
        ensures memory { IsErrOf result PortError.Memory → WantsMemory self.old.state.ports address width word }
    {
        // The call tells that RAM has whole pages.
        let _ = self.memory.pages();
        self.ports.store(address, width, word)
    }

    /// The page of the disk that a store to a port waits for, if it waits for one.
    pub(super) fn wanted_on_disk(&self, address: u32, width: u32, word: u32) -> Option<u32>
        ensures some { IfSome result (WaitsAt (needs_at (place_of address) width word self.now.state) self.now.pages) }
        ensures none { IsNone result → IsMet (needs_at (place_of address) width word self.now.state) self.now.pages }
    {
        let Some(page) = self.ports.touched(address, width, word) else {
            return None;
        };
        // The calls tell that RAM has whole pages, and that the disk has few sectors.
        let pages = self.memory.pages();
        let _ = self.ports.disk().sectors();
        if self.ports.is_here(page) {
            return None;
        }
        Some(pages + page)
    }
}
