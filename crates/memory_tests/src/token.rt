//! A number behind a handle, which tells how many entries hold it.

ghost use Rattle.std.specs.Prelude.{◌≡◌, ◌<◌, IfOk};

use shared_leaves::Handle;
use std::alloc::{AllocError, Global};
use std::marker::Model;
use std::sync::Arc;

/// A number that its clones share.
#[derive(Drop)]
pub struct Token {
    /// None: the number 0, which is in no memory.
    number: Option<Arc<u32>>,
}

impl Model for Token {
    ghost use Rattle.std.specs.Prelude.{ℕ};
    ghost use Rattle.std.specs.Arc.{arc_value};
    ghost use Rattle.std.specs.Option.{option_map_or};

    ghost Value = { ℕ };

    ghost view = { λ t. option_map_or arc_value t.number 0 };
}

impl Default for Token {
    fn default() -> Token {
        Token { number: None }
    }
}

impl Clone for Token {
    ghost use Rattle.std.specs.Prelude.{◌≡◌};

    ghost is_clone = { λ token copy. copy ≡ token };

    fn clone(&self) -> Result<Token, AllocError> {
        match &self.number {
            Some(number) => Ok(Token {
                number: Some(Arc::try_clone(number)?),
            }),
            None => Ok(Token { number: None }),
        }
    }
}

impl Handle for Token {
    ghost use Rattle.std.proofs.Common.{lit<};

    ghost clone_is_equal = { λ token copy same. same };

    ghost is_small = { (lit< tt, lit< tt) };
}

impl Token {
    pub fn new(alloc: Global, number: u32) -> Result<Token, AllocError>
        ensures { IfOk result (λ token. token ≡ number) }
    {
        Ok(Token {
            number: Some(Arc::new(alloc, number)?),
        })
    }

    pub fn number(&self) -> u32
        ensures { result ≡ self.now }
    {
        match &self.number {
            Some(number) => **number,
            None => 0,
        }
    }

    /// How many tokens share the number.
    pub fn owners(&self) -> usize
        ensures { 0 < result }
    {
        match &self.number {
            Some(number) => Arc::strong_count(number),
            None => 1,
        }
    }
}
