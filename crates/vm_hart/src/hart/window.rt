//! Where fast steps may access data. What is allowed stays for as many fast steps as are made together, so it is found out
//! where an access is of no window, and not at each step.

ghost use Rattle.std.specs.Prelude.{◌≡◌, IfSome, length, true};
ghost use Rattle.forest_model.specs.Access.{right_for, uses};
ghost use Rattle.rv_exec.specs.Memory.{IsWidth};
ghost use Rattle.rv_traps.specs.Protection.{allows, is_unrestricted};
ghost use Rattle.rv_traps.specs.declared.registers.CsrRegisters.{CsrRegisters};
ghost use Rattle.vm_hart.specs.Placed.{IsPlaced};
ghost use Rattle.vm_hart.specs.Windows.{AreOpen, IsOpen};

use super::Hart;
use super::access::is_aligned;
use forest_model::Access;
use guest_pmp::{Access as Right, Span};

/// Words of memory in which all loads are allowed, and words in which all stores are.
#[derive(Clone, Copy)]
pub(super) struct Windows {
    pub(super) loads: Span,
    pub(super) stores: Span,
}

impl Windows {
    /// Windows of no words.
    #[inline(always)]
    pub(super) fn shut() -> Windows
        ensures { (c : CsrRegisters) → AreOpen c result }
    {
        Windows {
            loads: Span::none(),
            stores: Span::none(),
        }
    }
}

impl Hart {
    /// The offset in RAM of an access that a fast step makes, or `None` where it is not aligned, not of RAM or not
    /// allowed. `FREE` tells that all is allowed.
    #[inline(always)]
    pub(super) fn place_in<const FREE: bool>(
        &self,
        access: Access,
        right: Right,
        size: u32,
        window: &mut Span,
    ) -> Option<u32>
        requires width { IsWidth access.width }
        requires right { right ≡ right_for (uses access.direction) }
        requires size { size ≡ length self.now.state.ram }
        requires free { FREE ≡ true → is_unrestricted self.now.state.csrs ≡ true }
        requires is_open { IsOpen self.now.state.csrs right window.old }
        ensures placed { IfSome result (IsPlaced self.now access) }
        ensures is_open { IsOpen self.now.state.csrs right window.new }
    {
        if !is_aligned(access) {
            return None;
        }
        let Some(offset) = self.offset_below(size, access.address) else {
            return None;
        };
        if FREE {
            return Some(offset);
        }
        if self.is_in(access.address, right, window) {
            Some(offset)
        } else {
            None
        }
    }

    /// Whether an access is allowed at an address, which is so in a window. It is moved where it does not have the
    /// address.
    #[inline(always)]
    fn is_in(&self, address: u32, right: Right, window: &mut Span) -> bool
        requires { IsOpen self.now.state.csrs right window.old }
        ensures allowed { result ≡ true → allows self.now.state.csrs right address ≡ true }
        ensures is_open { IsOpen self.now.state.csrs right window.new }
    {
        if window.has_address(address) {
            return true;
        }
        *window = self.window_at(address, right);
        window.has_address(address)
    }

    /// The window round an address in which an access is allowed, which has no words where it is denied there.
    #[cold]
    #[inline(never)]
    fn window_at(&self, address: u32, right: Right) -> Span
        ensures { IsOpen self.now.state.csrs right result }
    {
        match self.csrs.allowed_around(right, address) {
            Some(span) => span,
            None => Span::none(),
        }
    }
}
