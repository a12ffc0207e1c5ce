ghost use Rattle.std.specs.Prelude.{◌≡◌, ◌≤◌, length, IfOk};

use crate::port::MAX_INPUT;
use std::alloc::{AllocError, Global};
use std::marker::Model;
use std::sync::Arc;

/// All bytes that come in. The images and clones of a machine share them with it.
#[derive(Drop)]
pub struct Input {
    bytes: Arc<Vec<u8>>,
}

impl Model for Input {
    ghost use Rattle.std.specs.Prelude.{ℕ, ◌≤◌, List, length};
    ghost use Rattle.std.specs.Arc.{arc_value};
    ghost use Rattle.console_port.specs.declared.port.TheConstants.{MAX_INPUT};

    ghost Value = { List ℕ };

    ghost view = { λ i. (arc_value i.bytes).items };

    ghost invariant = { λ i. length (arc_value i.bytes).items ≤ MAX_INPUT };
}

impl Input {
    /// The input that has these bytes.
    pub fn new(alloc: Global, bytes: Vec<u8>) -> Result<Input, AllocError>
        requires { length bytes.items ≤ MAX_INPUT }
        ensures { IfOk result (λ input. input ≡ bytes.items) }
    {
        Ok(Input {
            bytes: Arc::new(alloc, bytes)?,
        })
    }

    /// The bytes, in the order in which they come in.
    #[inline]
    pub fn bytes(&self) -> &[u8]
        ensures value { result.now ≡ self.now }
        ensures fits { length result.now ≤ MAX_INPUT }
    {
        &self.bytes
    }

    /// The same input once more. It costs one handle.
    pub fn share(&self) -> Result<Input, AllocError>
        ensures { IfOk result (λ input. input ≡ self.now) }
    {
        Ok(Input {
            bytes: Arc::try_clone(&self.bytes)?,
        })
    }
}
